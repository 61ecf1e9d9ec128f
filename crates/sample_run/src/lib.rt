//! The run of a sample: the first node's new store, its opening, and exchanges with the other node up to the end.
#![tactic(auto)]

mod opening;
mod running;
mod store;

pub use running::{Sampled, run};
