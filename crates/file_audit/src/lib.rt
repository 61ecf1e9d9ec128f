//! The audit of a segment's file, which is read in pieces.
#![tactic(auto)]

mod fault;
mod hearing;
mod reading;
mod whole;

pub use fault::Fault;
pub use hearing::Audited;
pub use reading::audit_file;
pub use whole::read_whole;
