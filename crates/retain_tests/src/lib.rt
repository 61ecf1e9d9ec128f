//! Tests of a store that moves to a base, over two disks in memory: by printed lines, status, and the bytes and lines of both disks.
//! They stand in a crate of their own, since each test is proved too.
#![tactic(auto)]

#[cfg(test)]
mod tests;
