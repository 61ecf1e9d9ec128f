//! What holds of a journal that is moved to another disk: its bytes are read as that journal, and its keeps are true.
#![tactic(auto)]

mod laws;

pub use laws::{bases_are_read, moved_keeps_are_true};
