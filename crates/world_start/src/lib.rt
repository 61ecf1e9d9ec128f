//! The keys and the stores that the nodes of a schedule begin with.
#![tactic(auto)]

mod keys;
mod stores;

pub use keys::{key_of, public_keys};
pub use stores::store_of;
