//! The command that makes a key's two files.
#![tactic(auto)]

mod fault;
mod making;
mod writing;

pub use making::{key_of, keygen};
