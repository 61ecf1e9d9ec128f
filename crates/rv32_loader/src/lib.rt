//! Images are put into RAM: flat bytes, or the segments of an ELF executable.
#![tactic(auto)]

mod header;
mod inspection;
mod loading;
mod place;

pub use avm_model::LoadFault;
pub use inspection::inspect;
pub use loading::load;
