//! That an audit of what was exported ends with 0, as a law over the clauses of two commands: `export`, by the owner of a store, and `audit`, by
//! anybody.
#![tactic(auto)]

mod laws;

pub use laws::exports_audit_well;
