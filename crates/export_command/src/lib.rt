//! The command that writes entries of a store's journal as a segment's file.
#![tactic(auto)]

mod command;
mod finishing;
mod lines;

pub use command::export;
