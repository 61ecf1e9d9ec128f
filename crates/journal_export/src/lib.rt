//! Entries of a journal with the state at the first of them, exported as a segment.
#![tactic(auto)]

mod cut;
mod draft;
mod exporting;
mod fault;
mod front;
mod judging;
mod survey;
mod surveying;
mod writing;

pub use exporting::export;
pub use fault::ExportFault;
