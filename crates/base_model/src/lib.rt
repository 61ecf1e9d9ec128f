//! The definitions of bases (`specs/`): what a journal becomes that is moved to another disk, and what stands on a spare
//! meanwhile. What they say stands in `laws`, as the contracts of functions that do nothing.
#![tactic(auto)]

mod laws;

pub use laws::{
    at_most_one_opens, free_is_no_journal, marks_retire, moved_is_honest, retains_are_events,
};
