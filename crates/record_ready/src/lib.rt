//! What a turn of a recorder finds (`specs/`).
#![tactic(auto)]

mod steady;

pub use steady::is_steady;
