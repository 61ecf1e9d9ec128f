ghost use Rattle.std.specs.Prelude.{◌≡◌, ◌+◌, ◌<◌, ◌++◌, ◌∷◌};
ghost use Rattle.avm_model.specs.Hash.{hash_of};
ghost use Rattle.avm_model.specs.Pages.{sha_hashes};

use crate::hash::PageHash;
use avm_hash::{Digest, Hasher, Steps};
use lane_kern::leaves_x8;
use std::sync::ledger::{Blank, Ledger};

/// The hash of a byte and two pieces.
fn hash_parts(kind: u8, left: &[u8], right: &[u8]) -> Digest
    ensures { result.0 ≡ hash_of (kind ∷ (left.now ++ right.now)) }
{
    let mut hasher = Hasher::new();
    hasher.update(&[kind]);
    hasher.update(left);
    hasher.update(right);
    hasher.finish()
}

/// The hash of a byte and a page.
fn hash_page(page: &[u8; 4096]) -> Digest
    ensures { result.0 ≡ hash_of (0 ∷ page.now) }
{
    let mut hasher = Hasher::new();
    hasher.update(&[0]);
    hasher.update(page);
    hasher.finish()
}

/// Counts eight hashes.
fn count_eight<L: Ledger>(steps: &mut Steps<L>)
    ensures { steps.new ≡ steps.old + 8 }
{
    for _k in 0..8u32 {
        steps.tick();
    }
}

/// SHA-256 with a byte in front that tells a leaf from a node, and the count of the hashes that were made.
#[derive(Drop)]
pub struct ShaPages<L: Ledger> {
    steps: Steps<L>,
}

impl<L: Ledger> ShaPages<L> {
    /// A hasher that has made none. Its count stands in a blank page of the ledger.
    pub fn new(blank: Blank) -> ShaPages<L>
        requires name { blank.name ≡ L.name }
        requires parts { blank.parts ≡ L.parts }
        requires some { 0 < L.parts }
        ensures { result.steps ≡ 0 }
    {
        ShaPages {
            steps: Steps::new(blank),
        }
    }
}

impl<L: Ledger> PageHash for ShaPages<L> {
    ghost hashes = { sha_hashes };

    ghost count = { λ s. s.steps };

    fn leaf(&mut self, page: &[u8; 4096]) -> Digest {
        self.steps.tick();
        hash_page(page)
    }

    fn leaves(&mut self, pages: &[u8; 32768]) -> [Digest; 8] {
        count_eight(&mut self.steps);
        let [a, b, c, d, e, f, g, h] = leaves_x8(pages);
        [
            Digest(a),
            Digest(b),
            Digest(c),
            Digest(d),
            Digest(e),
            Digest(f),
            Digest(g),
            Digest(h),
        ]
    }

    fn node(&mut self, left: &Digest, right: &Digest) -> Digest {
        self.steps.tick();
        hash_parts(1, &left.0, &right.0)
    }
}
