//! The command that makes a store: the journal that has the boot of an image alone.
#![tactic(auto)]

mod boot;
mod command;
mod ends;
mod files;
mod finishing;
mod first;
mod inputs;
mod making;

pub use boot::{Boot, boot_machine};
pub use command::format;
pub use ends::{End, FileOption};
pub use first::make_store;
pub use inputs::Start;
