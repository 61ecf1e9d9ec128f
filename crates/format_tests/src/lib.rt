//! Tests of what is read and written: entries, chains, segments, evidence, authenticators, packets. They stand in a crate of their
//! own, since a crate with tests is proved twice.
#![tactic(auto)]

#[cfg(test)]
mod authenticators;
#[cfg(test)]
mod chains;
#[cfg(test)]
mod evidence;
#[cfg(test)]
mod frames;
#[cfg(test)]
mod packets;
#[cfg(test)]
mod segments;
