//! That turns, seals and crashes of a recorder are happenings at a station of a network, as contracts of functions that do
//! nothing.
#![tactic(auto)]

mod laws;

pub use laws::{comings_are_schedules, spelled_journals_sign, turns_come};
