//! The batch: entries, seals and keeps that aren't saved yet, in one buffer.
#![tactic(auto)]

mod batch;
mod keeping;
mod writing;

pub use batch::Batch;

#[cfg(test)]
mod tests;
