//! The command that answers evidence, for the owner of a store.
#![tactic(auto)]

mod command;
mod evidence;
mod judging;
mod lines;
mod refusal;
mod saying;

pub use command::rebut;
pub use judging::Judged;
pub use refusal::Refusal;
