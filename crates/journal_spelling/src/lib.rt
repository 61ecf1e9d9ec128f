//! That a journal has one spelling (`specs/`): what its bytes are, up to its last gate.
#![tactic(auto)]

mod laws;

pub use laws::spelled_once;
