//! What replays from a state: the machine of a head and pages, whether an entry has its root and count, and the entries
//! behind it.
#![tactic(auto)]

mod replaying;
mod starting;

pub use replaying::{fault_in, replay_to};
pub use starting::{commits, machine_from};
