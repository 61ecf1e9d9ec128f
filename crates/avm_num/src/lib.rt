//! Numbers and pieces in bytes: a cursor that reads them, a buffer of a fixed capacity that takes them, and the laws
//! that every format of this repository rests on.
#![tactic(auto)]

mod buffer;
mod view;

pub use buffer::{NoMemory, Room};
pub use view::{View, are_bytes};

#[cfg(test)]
mod tests;
