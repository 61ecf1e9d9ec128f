//! Replay: packets are judged and offered to a machine, and a log is judged one entry at a time.
#![tactic(auto)]

mod judging;
mod messages;
mod offering;
mod pending;
mod replay;
mod settling;
mod signed;
mod snapshot;
mod taking;

pub use guest_machine::NotTaken;
pub use messages::{ack_in, data_in};
pub use offering::{Offered, offer};
pub use replay::{Fault, Replay};
pub use signed::authentic;
pub use snapshot::root_now;
pub use taking::{Incoming, take_at};
