//! The base of a store that goes on from a SNAP entry, built by reading the store.
#![tactic(auto)]

mod building;
mod fault;
mod judging;
mod point;

pub use building::build;
