//! What holds of the machine that opening a journal gives, before a recorder's first turn.
#![tactic(auto)]

mod laws;

pub use laws::opened_machines_ask;
