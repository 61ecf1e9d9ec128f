//! The commands of keys in two levels that work on files, and what the commands on a roll share with them.
#![tactic(auto)]

mod ends;
mod finishing;
mod inputs;
mod narrow_files;
mod said;
mod widen_files;
mod writing;

pub use ends::{End, FileOption};
pub use finishing::finish;
pub use inputs::read_public_key;
pub use narrow_files::narrow;
pub use said::{Said, say};
pub use widen_files::widen;
pub use writing::write_file;
