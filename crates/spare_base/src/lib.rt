//! A whole base beside a spare: what the spare is by it, and a spare that is prepared.
#![tactic(auto)]

mod comparing;
mod kind;
mod preparing;

pub use kind::{Spare, spare_kind};
pub use preparing::prepare;
