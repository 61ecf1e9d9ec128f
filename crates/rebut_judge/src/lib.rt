//! What passes over a journal's items tell of it: whether its entries replay from the state of its header, the replay up to a
//! number, and all that one reading tells beside evidence.
#![tactic(auto)]

mod going;
mod judge;
mod reading;

pub use going::Going;
pub use judge::Judge;
pub use reading::Reading;
