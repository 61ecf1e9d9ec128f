//! Authenticators under two keys, and endorsements (docs/FORMATS.md, "Two levels of keys"): what is read and written of them.
#![tactic(auto)]

mod auths;
mod endorsement;
mod narrowing;
mod parts;
mod reading;
mod widening;

pub use auths::{HssAuths, read_hss_auths};
pub use endorsement::{Endorsement, read_endorsement};
pub use narrowing::{first_mixed, put_narrowed};
pub use parts::bottom_at;
pub use reading::read_hss_auth;
pub use widening::{count_auths, put_widened};
