//! Where a journal is opened: its last good keep, sought among its items, or else its header.
#![tactic(auto)]

mod base;
mod search;

pub use base::{Base, Search};
