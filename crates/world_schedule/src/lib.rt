//! Schedules of several nodes, read whole.
#![tactic(auto)]

mod cut;
mod event_line;
mod input;
mod line;
mod node_line;
mod schedule;
mod values;
mod whole;

pub use avm_script::ReadFault;
pub use event_line::{DeedLine, EventLine};
pub use input::Input;
pub use node_line::NodeLine;
pub use whole::Schedule;
