//! The first node of a sample: its recorder over objects in memory, whose turns are turns of a run.
#![tactic(auto)]

mod node;

pub use node::{Node, Progress};
