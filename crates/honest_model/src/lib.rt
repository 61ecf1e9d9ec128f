//! Honest journals (`specs/`): when a journal replays from its header, and what keeps add. What the definitions say stands in
//! `laws`, as the contracts of functions that do nothing.
#![tactic(auto)]

mod laws;

pub use laws::{exports_replay, honest_as_leading, marks_tell_pages, opened_as_replayed};
