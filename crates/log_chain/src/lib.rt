//! The chain of hashes over the entries of a log.
#![tactic(auto)]

ghost use Rattle.std.specs.Prelude.{◌≡◌};
ghost use Rattle.avm_model.specs.Frame.{frames_of};
ghost use Rattle.avm_model.specs.Chain.{next_hash, top_of};

use avm_hash::{Digest, Hasher, hash};
use log_entry::Frames;

/// The hash that follows `h` with an entry of this number, kind and content.
#[tactic(auto, unfolding(avm_model::specs::Chain::link, avm_num::specs::Lists::be, avm_num::specs::Lists::one))]
pub fn next(h: &Digest, seq: u64, kind: u8, content: &[u8]) -> Digest
    ensures { result.0 ≡ next_hash h.now.0 (record { seq = seq; kind = kind; content = content.now }) }
{
    let inner = hash(content);
    let mut hasher = Hasher::new();
    hasher.update(&h.0);
    hasher.update(&seq.to_be_bytes());
    hasher.update(&[kind]);
    hasher.update(&inner.0);
    hasher.finish()
}

/// The last hash of the chain that begins with `h` and goes over the frames; `h` itself where there are none.
pub fn chain(h: &Digest, frames: Frames<'_>) -> Digest
    ensures { result.0 ≡ top_of h.now.0 (frames_of frames.entry) }
{
    let mut top = *h;
    for frame in frames {
        top = next(&top, frame.seq, frame.kind, frame.content);
    }
    top
}
