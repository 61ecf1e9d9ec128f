//! Journals on a disk.
#![tactic(auto)]

mod cursor;
mod fault;
mod frames;
mod items;
mod journal;
mod making;
mod reading;
mod retiring;
mod shows;
mod signing;
mod snaps;
mod staging;
mod ticket;
mod writing;

pub use cursor::{Cursor, Record, Sought};
pub use fault::{Stop, StoreFault};
pub use items::{Item, Items};
pub use journal::Journal;
pub use ticket::Ticket;
