//! The commands that make a roll and bind keys in it.
#![tactic(auto)]

mod binding;
mod granting;
mod inputs;
mod making;

pub use binding::enroll;
pub use making::roll;
