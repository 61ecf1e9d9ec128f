//! A store is opened as the parts of a recorder: from its last good keep, or else from its header.
#![tactic(auto)]

mod fault;
mod marking;
mod opening;

pub use fault::RecordFault;
pub use opening::attach;
