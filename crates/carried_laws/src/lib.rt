//! What holds of the entries that a base carries, as laws.
#![tactic(auto)]

mod laws;

pub use laws::carried_entries_fit;
