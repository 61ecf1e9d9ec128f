//! The keeps of a journal: whether one has the state that its SNAP entry tells, and the RAM that they change one after another.
#![tactic(auto)]

mod heads;
mod paged;
mod told;

pub use heads::{bare_machine, fits, is_good};
pub use paged::Paged;
pub use told::{Told, told_by};
