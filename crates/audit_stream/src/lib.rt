//! The verdict on a segment that comes in pieces of any size.
#![tactic(auto)]

mod course;
mod loading;
mod marking;
mod matching;
mod opening;
mod rows;
mod stream;
mod subject;
mod valid;
mod verdicts;

pub use avm_model::Verdict;
pub use stream::AuditStream;
pub use valid::{is_same, is_valid};
