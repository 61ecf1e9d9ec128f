//! Tests of `view`: what is printed of segments in memory, by their lines and status. They stand in a crate of their own,
//! since each test is proved too.
#![tactic(auto)]

#[cfg(test)]
mod tests;
