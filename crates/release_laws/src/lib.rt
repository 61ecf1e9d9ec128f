//! That exported segments are accepted with what was released of them, as a law.
#![tactic(auto)]

mod laws;

pub use laws::released_segments_are_accepted;
