//! The acts of a recorder's turns: what a step or an input writes is saved, and only then released.
#![tactic(auto)]

mod desk;
mod finishing;
mod releasing;
mod sealing;
mod settling;
mod stepping;

pub use desk::Desk;
pub use finishing::has_numbers;
