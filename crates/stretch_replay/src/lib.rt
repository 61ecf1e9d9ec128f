//! The state of a journal behind an entry: its base for that entry is sought, and the entries from there on are replayed.
#![tactic(auto)]

mod run;
mod searching;
mod stretching;

pub use run::Run;
pub use stretching::{Stretched, stretch};
