//! A journal that is opened is read twice: for its tickets and its base, and for the replay from there.
#![tactic(auto)]

mod replaying;
mod run;
mod searching;

pub use replaying::{Replayed, replay};
pub use run::Run;
pub use searching::header_head;
