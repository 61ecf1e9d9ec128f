//! The life of a store over all its openings, as definitions; and what holds at every moment of it.
#![tactic(auto)]

mod laws;

pub use laws::lives_are_kept;
