//! The definitions of journals (`specs/`): the bytes that a store keeps on its disk, and what they stand for. What they say
//! stands in `laws`, as the contracts of functions that do nothing.
#![tactic(auto)]

mod laws;

pub use laws::{
    gates_are_read, headers_are_fronts, journals_fit, leaves_differ, standing_tells_all,
};
