//! What a sample is made of: its drawn words, the keys of its two nodes, its image, and the other node's log.
#![tactic(auto)]

mod drawing;
mod nodes;
mod peer;

pub use drawing::{draw_bytes, draw_message, generator};
pub use nodes::{draw_image, draw_key};
pub use peer::Peer;
