//! Tests of audits. They stand above the auditor, in a crate of their own, since each test is proved too.
#![tactic(auto)]

#[cfg(test)]
mod table;
