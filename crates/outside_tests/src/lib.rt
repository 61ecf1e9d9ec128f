//! Tests of the objects outside: files, disks, feeds, outlets. They stand in a crate of their own, since a crate with tests is proved
//! twice.
#![tactic(auto)]

#[cfg(test)]
mod disks;
#[cfg(test)]
mod failing;
#[cfg(test)]
mod outlets;
