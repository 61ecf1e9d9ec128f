//! The two nodes of a sample: a turn of the first, and what the other one says to it.
#![tactic(auto)]

mod talk;

pub use talk::Talk;
