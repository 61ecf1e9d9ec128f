//! Packets between nodes: a message with its sender's commitment to it, and its acknowledgement.
#![tactic(auto)]

mod committing;
mod packet;
mod writing;

pub use committing::committed;
pub use log_entry::Body;
pub use packet::{Packet, read_packet};
pub use writing::{put_ack, put_data};
