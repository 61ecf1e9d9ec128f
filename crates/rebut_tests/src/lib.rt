//! Tests of rebuttals of evidence by stores in memory: what is printed, and the status. They stand in a crate of their own, since
//! each test is proved too.
#![tactic(auto)]

#[cfg(test)]
mod tests;
