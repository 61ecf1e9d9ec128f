//! The tickets that a recorder keeps, so that packets can be sent again.
#![tactic(auto)]

mod kept;
mod rebuilding;
mod sending;

pub use kept::{Kept, KeptRow, KeptSend};
pub use rebuilding::{keep_entry, sender};
pub use sending::keep_outs;
