//! That what is exported of an honest journal is accepted, as a law.
#![tactic(auto)]

mod laws;

pub use laws::exports_are_accepted;
