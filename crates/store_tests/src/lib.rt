//! Tests of the commands over stores in memory: what they print, and their status. They stand in a crate of their own, since
//! each test is proved too.
#![tactic(auto)]

#[cfg(test)]
mod tests;
