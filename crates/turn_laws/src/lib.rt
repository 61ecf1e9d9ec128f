//! That a recorder's turns over a feed of a script are the turns of that script.
#![tactic(auto)]

mod laws;

pub use laws::turns_follow_scripts;
