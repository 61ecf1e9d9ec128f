//! Passes over a journal's items, as it lies on its disk; and whether the journal has bound a pair.
#![tactic(auto)]

mod fault;
mod pass;
mod sought;

pub use fault::ReadFault;
pub use pass::{Pass, read_all};
pub use sought::{Pair, Sought};
