//! Entries of a log: frames, what their contents say, and the packets that stand in them.
#![tactic(auto)]

mod frame;
mod frames;
mod kinds;
mod packet;
mod parts;
mod reading;
mod writing;

pub use frame::{Frame, read_frame};
pub use frames::Frames;
pub use kinds::Content;
pub use packet::{Body, ack_body, data_body, is_ack, is_data};
pub use reading::content;
pub use writing::put_frame;
