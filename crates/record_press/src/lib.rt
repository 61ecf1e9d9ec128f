//! What a recorder releases, signed: packets and authenticators.
#![tactic(auto)]

mod press;

pub use press::Press;
