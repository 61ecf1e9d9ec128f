//! What the commands share: files that are read whole, up to a limit, and lines that are printed.
#![tactic(auto)]

mod fault;
mod printing;
mod reading;

pub use fault::Fault;
pub use printing::{print_last, print_line};
pub use reading::read_file;
