//! The acts of a recorder's turns on packets: those that come in, and those that are released again.
#![tactic(auto)]

mod again;
mod answering;
mod coming;
mod packets;

pub use again::{Kind, Parcel};
pub use coming::take_packet;
pub use packets::send_again;
