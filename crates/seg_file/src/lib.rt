//! Segments: a cut of a log with the state before it (docs/FORMATS.md, Segment).
#![tactic(auto)]

mod entries;
mod filling;
mod front;
mod place;
mod reader;
mod reading;
mod store;
mod writing;

pub use filling::Part;
pub use front::Segment;
pub use reader::SegReader;
pub use reading::read_segment;
pub use writing::put_front;
