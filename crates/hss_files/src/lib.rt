//! What is judged and written of files under two keys (docs/FORMATS.md, "Two levels of keys").
#![tactic(auto)]

mod endorsing;
mod judging;
mod laws;
mod narrowing;

pub use endorsing::put_endorsement;
pub use laws::{endorsements_are_read, narrowed_are_valid};
pub use narrowing::{Narrowed, narrow};
