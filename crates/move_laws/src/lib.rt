//! When a journal can be moved to a base, as laws.
#![tactic(auto)]

mod laws;

pub use laws::snapshots_can_move;
