//! What the owner of a journal answers to evidence: an authenticator that the journal has never signed, or a collision.
#![tactic(auto)]

mod answers;
mod covering;
mod evidence;
mod fault;
mod rebutting;
mod seen;
mod starting;
mod states;

pub use answers::Rebuttal;
pub use fault::RebutFault;
pub use rebut_pass::ReadFault;
pub use rebut_texts::Bytes;
pub use rebutting::rebut;
pub use starting::has_head;
