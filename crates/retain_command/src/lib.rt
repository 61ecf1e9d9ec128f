//! The command that moves a store to a base on another disk.
#![tactic(auto)]

mod command;
mod finishing;
mod lines;

pub use command::retain;
