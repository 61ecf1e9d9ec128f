//! What a node of several works with: a feed that gives one event, an outlet that keeps one packet, and the image that a crash
//! leaves of its disk.
#![tactic(auto)]

mod crash;
mod one_feed;
mod one_outlet;

pub use crash::crash_image;
pub use one_feed::OneFeed;
pub use one_outlet::OneOutlet;
