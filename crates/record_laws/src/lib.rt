//! Laws of recording whose proofs go through the machine's instructions; they stand beside the definitions, so that these stay
//! below the machine.
#![tactic(auto)]

mod laws;

pub use laws::{keeps_stay_true, turns_are_moves, turns_record};
