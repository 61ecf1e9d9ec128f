//! RAM: one flat list of bytes from address 2 ^ 31 on, with a mark for each page that was written.
#![tactic(auto)]

mod ram;

pub use ram::Ram;
