//! A segment that comes in pieces, compared with an image's boot as they come.
#![tactic(auto)]

mod compared;
mod stream;

pub use compared::Compared;
pub use stream::BootStream;
