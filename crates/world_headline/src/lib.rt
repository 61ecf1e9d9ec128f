//! That what several nodes have received was sent: the worlds of `world_core` as schedules of recorders, as the contract of a
//! function that does nothing.
#![tactic(auto)]

mod laws;

pub use laws::worlds_agree;
