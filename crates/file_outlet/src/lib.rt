//! The three files of a run as its outlet: packets, lines of the console, and authenticators.
#![tactic(auto)]

mod outlet;

pub use outlet::FileOutlet;
