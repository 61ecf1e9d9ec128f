//! The devices of a guest: console, clock, messages, the doorbell, and what a word access to each of their addresses does.
#![tactic(auto)]

mod devices;
mod doorbell;
mod loads;
mod message;
mod queue;
mod rows;
mod stores;
mod words;

pub use avm_model::{Bell, Peer};
pub use devices::{Devices, Regs};
pub use loads::DevGot;
