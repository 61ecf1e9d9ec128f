//! Tests of keys, their files and signatures. They stand in a crate of their own, since a crate with tests is proved twice.
#![tactic(auto)]

#[cfg(test)]
mod files;
#[cfg(test)]
mod trees;
