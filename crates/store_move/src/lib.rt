//! A store that moves to a base on another disk: at any moment no image of that disk is a journal, or each image of the store has
//! the mark that retires it.
#![tactic(auto)]

mod fault;
mod moving;
mod retaining;

pub use fault::RetainFault;
pub use moving::move_store;
pub use retaining::retain_base;
