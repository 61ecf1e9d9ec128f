//! Tests of recorders over disks, feeds and outlets in memory, in a crate of their own, since each test is proved too.
#![tactic(auto)]

#[cfg(test)]
mod tests;
