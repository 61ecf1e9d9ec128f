//! Tests of what a sample is made of. They stand in a crate of their own, since each test is proved too.
#![tactic(auto)]

#[cfg(test)]
mod parts;
