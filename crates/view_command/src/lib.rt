//! The command that shows the guest's state at a count, or the changes of a word of its RAM.
#![tactic(auto)]

mod changing;
mod ends;
mod finishing;
mod segment;
mod showing;
mod shown;
mod view;
mod words;

pub use ends::End;
pub use shown::StateAsked;
pub use view::{view_at, view_changes};
