//! What a recorder's calls leave: a journal that replays whole, whose keeps are all true; and so is every image that a crash
//! leaves (`specs/`).
#![tactic(auto)]

mod laws;

pub use laws::turns_keep_true;
