//! The head of a snapshot: the machine without its RAM, as bytes (docs/FORMATS.md, Head).
#![tactic(auto)]

mod bounds;
mod draft;
mod fitting;
mod machine;
mod messages;
mod parts;
mod peers;
mod put;
mod queues;
mod words;
mod writing;

pub use machine::machine_of;
pub use parts::read_head;
pub use writing::{head_len, put_head, state_root};

#[cfg(test)]
mod tests;
