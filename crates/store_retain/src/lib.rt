//! A store is retained: it moves to a base on a spare, or a move that was cut is ended.
#![tactic(auto)]

mod fault;
mod retaining;

pub use retaining::retain;
