//! The machine's side of a recorder: outputs and inputs as entries of the batch.
#![tactic(auto)]

mod drafts;
mod putting;
mod taking;

pub use drafts::Drafts;
pub use putting::put_outs;
pub use taking::{take_clock, take_console, take_packet};
