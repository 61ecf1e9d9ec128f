//! The command that prints a store's journal, a line for each item.
#![tactic(auto)]

mod command;
mod ends;
mod finishing;
mod listing;
mod numbers;
mod printing;
mod store;
mod texts;

pub use command::list;
pub use ends::End;
