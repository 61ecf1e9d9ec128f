//! Authenticators: signed positions of a log.
#![tactic(auto)]

mod auth;
mod auths;

pub use auth::{Auth, put_auth, read_auth, signed_text};
pub use auths::{Auths, read_auths};
