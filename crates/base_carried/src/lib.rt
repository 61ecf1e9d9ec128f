//! The entries of a journal that a base carries, found by two readings of it.
#![tactic(auto)]

mod finding;
mod picking;
mod reading;
mod row;

pub use reading::{Carried, read_carried};
