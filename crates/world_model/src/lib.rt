//! Several nodes and the packets between them, as definitions: what a node's journal says of messages, what an event at a node
//! changes, and what nodes then agree on; the events of a schedule, and the lines of a world. What they say stands in `laws`, as the
//! contracts of functions that do nothing.
#![tactic(auto)]

mod event;
mod laws;

pub use event::{Act, Crash, Event};
pub use laws::{agreement_stands, nodes_agree, worked_lines};
