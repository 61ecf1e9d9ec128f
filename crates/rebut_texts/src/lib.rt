//! Texts that are hashed, a journal's beside the evidence's: those of entries from the last number down, of states, and of page
//! trees from the root down; the first two that differ.
#![tactic(auto)]

mod bytes;
mod comparing;
mod differing;
mod numbers;
mod pages;
mod states;
mod texts;

pub use bytes::{Bytes, Found};
pub use comparing::unequal;
pub use differing::compare_states;
pub use numbers::Walk;
pub use pages::page_walk;
pub use states::renew;
pub use texts::Unequal;
