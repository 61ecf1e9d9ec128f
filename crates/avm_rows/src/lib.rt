//! Tests of the whole: runs of the top call over files in memory, by printed line and status. They stand above it, in a
//! crate of their own, since each test is proved too.
#![tactic(auto)]

#[cfg(test)]
mod tests;
