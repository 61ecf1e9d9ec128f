//! LM-OTS: the one-time signatures of RFC 8554, section 4, with SHA-256.
#![tactic(auto)]

mod buffer;
mod digits;
mod lanes;
mod laws;
mod running;
mod signing;
mod types;
mod values;

pub use laws::chain_equations;
pub use signing::{candidate, public, sign};
pub use types::{chains, width};

#[cfg(test)]
mod tests;
