//! LMS: the signatures of RFC 8554, section 5, with SHA-256. A key keeps all nodes of its tree.
#![tactic(auto)]

mod building;
mod key;
mod laws;
mod nodes;
mod verifying;

pub use key::{LmsKey, MakeFault};
pub use laws::node_equations;
pub use nodes::{leaf_count, signature_len};
pub use verifying::{is_public_key, verify};
