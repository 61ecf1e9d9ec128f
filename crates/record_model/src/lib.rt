//! The definitions of recording (`specs/`): what a recorder adds to a journal, what it releases, and what a whole recording
//! is. What they say stands in `laws`, as the contracts of functions that do nothing.
#![tactic(auto)]

mod laws;

pub use laws::{acts_go_on, acts_keep_standing, records_release_their_own};
