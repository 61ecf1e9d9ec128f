//! What the calls on rolls mean for a history of a roll, and the commands on authenticators for one another, as contracts of functions
//! that do nothing.
#![tactic(auto)]

mod laws;

pub use laws::{enrolls_are_events, widened_files_are_narrowed};
