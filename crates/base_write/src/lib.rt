//! The bytes of a base: its header, its records, and a closed gate.
#![tactic(auto)]

mod header;
mod writing;

pub use header::BaseHeader;
pub use writing::{Base, write_base};
