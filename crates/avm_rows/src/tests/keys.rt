//! Keys of height 5, and what they sign.

use avm_auth::{put_auth, signed_text};
use avm_hash::Digest;
use avm_num::Room;
use lms_tree::LmsKey;
use std::alloc::Global;

const ID: [u8; 16] = [0, 1, 2, 3, 4, 5, 6, 7, 8, 9, 10, 11, 12, 13, 14, 15];

/// The key with digits of 8 bits whose seed is this byte 32 times.
pub fn key(alloc: Global, seed: u8) -> Option<LmsKey> {
    LmsKey::make(alloc, 5, 4, ID, Digest([seed; 32])).ok()
}

/// The key with digits of 1 bit: it takes the fewest hashes.
pub fn quick_key(alloc: Global, seed: u8) -> Option<LmsKey> {
    LmsKey::make(alloc, 5, 1, ID, Digest([seed; 32])).ok()
}

/// The signature of an entry's number and hash.
#[tactic(auto, unfolding(avm_num::specs::Room::left))]
pub fn signature(
    alloc: Global,
    key: &LmsKey,
    leaf: u32,
    seq: u64,
    hash: &Digest,
) -> Option<Vec<u8>> {
    if leaf >= key.leaves() {
        return None;
    }
    let mut out = Room::new(alloc, key.signature_len()).ok()?;
    key.sign(leaf, &signed_text(seq, hash), &mut out);
    Vec::from_slice(alloc, out.bytes()).ok()
}

/// The authenticator of an entry's number and hash.
#[tactic(auto, unfolding(avm_num::specs::Room::left))]
pub fn authenticator(
    alloc: Global,
    key: &LmsKey,
    leaf: u32,
    seq: u64,
    hash: &Digest,
) -> Option<Vec<u8>> {
    let sig = signature(alloc, key, leaf, seq, hash)?;
    if sig.len() > 9324 {
        return None;
    }
    let mut out = Room::new(alloc, 44 + sig.len()).ok()?;
    put_auth(&mut out, seq, hash, &sig);
    Vec::from_slice(alloc, out.bytes()).ok()
}
