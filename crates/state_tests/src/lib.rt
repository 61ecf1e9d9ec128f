//! Tests of a machine's state as bytes: page trees, images, and the replay from a state. They stand in a crate of their own,
//! since a crate with tests is proved twice.
#![tactic(auto)]

#[cfg(test)]
mod images;
#[cfg(test)]
mod replays;
#[cfg(test)]
mod trees;
