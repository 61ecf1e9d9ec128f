//! An open recorder: its turns, and its seal.
#![tactic(auto)]

mod asking;
mod attaching;
mod going;
mod recorder;
mod shows;
mod turning;

pub use record_open::RecordFault;
pub use record_parts::{Sealed, Stop, Turn};
pub use recorder::Recorder;
