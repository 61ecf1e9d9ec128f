//! Turns of a recorder whose feed is a script's, as turns of the script's run.
#![tactic(auto)]

mod laws;

pub use laws::turns_are_of_runs;
