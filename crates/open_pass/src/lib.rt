//! Passes over the items of a journal that is opened, each with the right to keep its tickets; and the tickets that are kept.
#![tactic(auto)]

mod pass;
mod tickets;

pub use pass::{Pass, read_all};
pub use tickets::Tickets;
