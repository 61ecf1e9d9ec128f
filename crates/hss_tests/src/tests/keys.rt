//! Keys of height 5 and w 8, and what they sign.
ghost use Rattle.std.specs.Prelude.{◌≡◌, ◌≤◌, IfOk};
ghost use Rattle.avm_num.specs.Room.{left};

use crate::tests::rolls::roll;
use crate::tests::untold::Untold;
use avm_auth::{put_auth, signed_text};
use avm_hash::Digest;
use avm_num::{NoMemory, Room};
use hss_files::put_endorsement;
use lms_hss::{Granted, Roll};
use lms_tree::LmsKey;
use std::alloc::{AllocError, Global};

/// A key of one byte.
pub fn key(alloc: Global, byte: u8) -> Result<LmsKey, AllocError> {
    match LmsKey::make(alloc, 5, 4, [byte; 16], Digest([byte; 32])) {
        Ok(key) => Ok(key),
        Err(_) => Err(AllocError),
    }
}

/// An empty room.
#[tactic(auto, unfolding(avm_num::specs::Room::left))]
pub fn room(alloc: Global, capacity: usize) -> Result<Room, AllocError>
    ensures { IfOk result (λ r. left r ≡ capacity) }
{
    match Room::new(alloc, capacity) {
        Ok(room) => Ok(room),
        Err(NoMemory) => Err(AllocError),
    }
}

/// The signature of a text at a leaf.
pub fn signed(alloc: Global, key: &LmsKey, leaf: u32, text: &[u8]) -> Result<Vec<u8>, AllocError> {
    let mut out = room(alloc, 9324)?;
    key.signature_len();
    if leaf < key.leaves() {
        key.sign(leaf, text, &mut out);
    }
    Vec::from_slice(alloc, out.bytes())
}

/// Authenticators of the numbers 1 and 2, at the leaves 0 and 1.
pub fn auths(alloc: Global, key: &LmsKey) -> Result<Vec<u8>, AllocError> {
    let mut bytes = Vec::new(alloc);
    for (leaf, seq) in [(0, 1), (1, 2)] {
        let hash = Digest([seq; 32]);
        let sig = signed(alloc, key, leaf, &signed_text(seq as u64, &hash))?;
        let mut out = room(alloc, 9368)?;
        if sig.len() <= 9324 {
            put_auth(&mut out, seq as u64, &hash, &sig);
        }
        bytes.extend_from_slice(out.bytes())?;
    }
    Ok(bytes)
}

/// What a roll with one other key grants to a bottom key.
pub fn granted(alloc: Global, bottom: &LmsKey) -> Result<Granted, AllocError> {
    let mut disk = Untold::new(alloc, &roll(alloc, &[3], &[0])?, &[])?;
    let Ok(mut open) = Roll::attach(&mut disk) else {
        return Err(AllocError);
    };
    match open.enroll(&mut disk, &bottom.public()) {
        Ok(granted) => Ok(granted),
        Err(_) => Err(AllocError),
    }
}

/// The endorsement of a bottom key.
pub fn endorsement(alloc: Global, top: &LmsKey, granted: &Granted) -> Result<Vec<u8>, AllocError> {
    let mut out = room(alloc, 9388)?;
    if granted.leaf() < top.leaves() {
        put_endorsement(top, granted, &mut out);
    }
    Vec::from_slice(alloc, out.bytes())
}
