//! Where the records of a journal begin on its disk.
#![tactic(auto)]

mod carriage;
mod counting;
mod placing;

pub use placing::read_start;
