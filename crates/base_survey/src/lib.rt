//! Where a base begins in a journal: the hash before its SNAP entry, and how many leaves are used before it.
#![tactic(auto)]

mod placing;
mod survey;

pub use placing::read_place;
pub use survey::{Place, Survey};
