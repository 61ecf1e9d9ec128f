//! What holds of every segment that is exported, as laws.
#![tactic(auto)]

mod laws;

pub use laws::exports_stand_still;
