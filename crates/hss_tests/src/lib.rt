//! Tests of keys in two levels over objects in memory, in a crate of their own, since each test is proved too.
#![tactic(auto)]

#[cfg(test)]
mod tests;
