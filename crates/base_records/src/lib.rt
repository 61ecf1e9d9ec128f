//! The records of a base: those of a journal from an entry on, read from its disk.
#![tactic(auto)]

mod laws;
mod reading;
mod tail;

pub use laws::records_stand;
pub use reading::{BaseRecords, read_records};
