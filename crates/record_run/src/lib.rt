//! A script's run on an open recorder: turns until it is over, a line for each event that is dropped, and the seal.
#![tactic(auto)]

mod dropping;
mod feeding;
mod running;
mod sealing;
mod stops;
mod turning;

pub use running::run;
pub use stops::RunStop;
