//! Whether a segment begins with the state in which a machine boots from an image.
#![tactic(auto)]

mod begins;
mod booted;
mod pages;

pub use begins::begins_as;
pub use booted::is_booted;
