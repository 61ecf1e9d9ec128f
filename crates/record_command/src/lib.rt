//! The command that records a script on a store.
#![tactic(auto)]

mod command;
mod ends;
mod files;
mod finishing;
mod inputs;
mod lines;
mod opening;
mod recording;
mod running;
mod summary;

pub use command::{RecordNames, record};
pub use ends::{End, FileOption, Summary};
