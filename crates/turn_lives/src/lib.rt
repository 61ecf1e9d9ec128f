//! Turns and seals of a recorder as events of its store's life (`specs/`).
#![tactic(auto)]

mod laws;

pub use laws::turns_are_lived;
