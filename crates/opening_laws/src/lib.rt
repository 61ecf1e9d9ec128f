//! That a journal is opened in one way: its base, the fault that is found and the machine are each one.
#![tactic(auto)]

mod laws;

pub use laws::opening_is_one;
