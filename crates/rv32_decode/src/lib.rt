//! The instructions of RV32IM: which one a word is, and the word of one.
#![tactic(auto)]

mod codes;
mod fields;
mod from_word;
mod rows;
mod to_word;
mod words;

pub use avm_model::{BranchOp, ImmOp, Inst, LoadOp, MulOp, RegOp, StoreOp};
pub use from_word::decode;
pub use to_word::encode;
