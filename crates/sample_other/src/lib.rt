//! The other node of a sample: what it says to what it hears.
#![tactic(auto)]

mod other;

pub use other::Other;
