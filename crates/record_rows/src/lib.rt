//! Tests of what the program records and exports, over files, a disk and a sink in memory: by printed lines, status, files and
//! the store. They stand in a crate of their own, since each test is proved too.
#![tactic(auto)]

#[cfg(test)]
mod tests;
