//! How turns of a recorder end, and the steps that they make.
#![tactic(auto)]

mod answers;
mod releasing;
mod snapping;
mod spelling;
mod writing;

pub use answers::{Sealed, Turn};
pub use jrnl_store::Stop;
pub use releasing::release_line;
pub use snapping::put_snap;
pub use spelling::{spell, step_on};
pub use writing::{put_halt, put_line, put_sent};
