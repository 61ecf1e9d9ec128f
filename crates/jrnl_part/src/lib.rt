//! The parts of a journal's records, its headers, and where a journal stands behind its parts (docs/FORMATS.md, "Journal").
#![tactic(auto)]

mod first;
mod header;
mod part;
mod standing;

pub use first::{put_boot, put_header};
pub use header::{Carried, Main, Start, is_carriage, new_start, read_start, take_carried};
pub use part::{Keep, Page, Part, take_page, take_part};
pub use standing::{Bounds, Signed, Standing, continued, is_signed, snap_in};
