//! Evidence: what shows a fault of a log to others (docs/FORMATS.md, Evidence).
#![tactic(auto)]

mod evidence;
mod pieces;
mod reading;
mod writing;

pub use evidence::Evidence;
pub use reading::read_evidence;
pub use writing::write_evidence;
