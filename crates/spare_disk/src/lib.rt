//! The disk to which a store moves: a base is written to it but for its first byte, which is written last.
#![tactic(auto)]

mod activating;
mod preparing;

pub use activating::activate;
pub use preparing::{begin, finish, put};
