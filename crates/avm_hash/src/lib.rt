//! SHA-256, and a count of the hashes that were made.
#![tactic(auto)]

ghost use Rattle.std.specs.Prelude.{◌≡◌, ◌++◌, [], ℕ, List, length};
ghost use Rattle.avm_model.specs.Hash.{hash_of};
ghost use Rattle.avm_hash.specs.Fed.{Fed};

mod steps;

pub use avm_model::Digest;
use sha2::{Digest as _, Sha256};
pub use steps::Steps;

/// SHA-256 of the bytes.
#[tactic(auto, unfolding(avm_model::specs::Hash::hash_of))]
pub fn hash(bytes: &[u8]) -> Digest
    ensures { result.0 ≡ hash_of bytes.now }
{
    Digest(Sha256::digest(bytes))
}

/// A hasher, fed with bytes.
#[derive(Drop)]
pub struct Hasher {
    inner: Sha256,
}

impl Hasher {
    pub fn new() -> Hasher
        ensures { Fed result [] }
    {
        Hasher {
            inner: Sha256::new(),
        }
    }

    pub fn update(&mut self, bytes: &[u8])
        ensures { (m : List ℕ) → Fed self.old m → Fed self.new (m ++ bytes.now) }
    {
        self.inner.update(bytes);
    }

    #[tactic(auto, unfolding(avm_model::specs::Hash::hash_of))]
    pub fn finish(self) -> Digest
        ensures { (m : List ℕ) → Fed self m → result.0 ≡ hash_of m }
    {
        Digest(self.inner.finalize())
    }
}

#[cfg(test)]
mod tests;
