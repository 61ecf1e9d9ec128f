//! The signer: private key files, and the key that signs with its tree in memory.
#![tactic(auto)]

mod key_file;
mod signer;

pub use key_file::{KeyFile, put_key, read_key};
pub use signer::Signer;
