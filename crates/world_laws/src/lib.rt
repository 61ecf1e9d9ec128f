//! Networks of recorders, as definitions, and their laws over every schedule of joins, turns, deliveries, losses, repeats and
//! crashes, as contracts of functions that do nothing.
#![tactic(auto)]

mod laws;

pub use laws::{acts_are_events, packets_fit, schedules_agree};
