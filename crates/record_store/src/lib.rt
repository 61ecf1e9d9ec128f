//! The journal of a recorder with the batch that isn't saved yet.
#![tactic(auto)]

mod store;

pub use store::Store;
