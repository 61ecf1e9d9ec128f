//! Tests of the machine's parts: instructions, memory, devices, loading, and the machine whole. They stand in a crate of their own,
//! since a crate with tests is proved twice.
#![tactic(auto)]

#[cfg(test)]
mod devices;
#[cfg(test)]
mod execution;
#[cfg(test)]
mod instructions;
#[cfg(test)]
mod loading;
#[cfg(test)]
mod machines;
#[cfg(test)]
mod memory;
