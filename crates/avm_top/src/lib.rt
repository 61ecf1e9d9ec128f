//! The program's one call, over files, disks and a sink that are handed in: the words name a command, and its crate does it.
#![tactic(auto)]

mod refusing;
mod top;

pub use avm_script::{spare_word, store_word};
pub use top::avm;
