//! Tests of the texts that a rebuttal compares. They stand in a crate of their own, since each test is proved too.
#![tactic(auto)]

#[cfg(test)]
mod tests;
