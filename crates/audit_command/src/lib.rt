//! The commands that judge: an audit of a segment, and a check of evidence.
#![tactic(auto)]

mod auditing;
mod checking;
mod ends;
mod image_file;
mod inputs;
mod judging;
mod key_file;
mod limits;
mod said;

pub use auditing::audit;
pub use checking::check;
pub use ends::{End, FileOption};
