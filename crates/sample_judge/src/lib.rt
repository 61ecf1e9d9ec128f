//! What a sample's run left is judged: its two segments, and a cheat.
#![tactic(auto)]

mod answering;
mod auths;
mod cheating;
mod convicting;
mod ending;
mod judging;
mod lines;
mod numbers;
mod segments;

pub use ending::Ending;
pub use judging::judge;
