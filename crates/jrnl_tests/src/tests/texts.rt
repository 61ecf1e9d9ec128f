//! Bytes of journals.

use avm_num::Room;
use std::alloc::{AllocError, Global};

/// The front of a key: height 5, one hash chain a byte.
pub const KEY: [u8; 8] = [0, 0, 0, 5, 0, 0, 0, 4];

/// A head of one page, whose count is 0.
pub const HEAD: [u8; 11] = [0, 0, 0, 0, 0, 0, 0, 0, 0, 1, 0];

/// The front of BOOT: number 1, count 0. Its root stands behind.
pub const BOOT: [u8; 22] = [
    1, 0, 0, 0, 0, 0, 0, 0, 1, 1, 0, 0, 0, 40, 0, 0, 0, 0, 0, 0, 0, 0,
];

/// The line `A` at count 7, as entry 2.
pub const LINE: [u8; 23] = [
    1, 0, 0, 0, 0, 0, 0, 0, 2, 7, 0, 0, 0, 9, 0, 0, 0, 0, 0, 0, 0, 7, 65,
];

/// The empty message 1 to peer 3 at count 7, as entry 3.
pub const SEND: [u8; 34] = [
    1, 0, 0, 0, 0, 0, 0, 0, 3, 8, 0, 0, 0, 20, 0, 0, 0, 0, 0, 0, 0, 7, 0, 0, 0, 3, 0, 0, 0, 0, 0,
    0, 0, 1,
];

/// The front of SNAP: number 4, count 8. Its root stands behind.
pub const SNAP: [u8; 22] = [
    1, 0, 0, 0, 0, 0, 0, 0, 4, 2, 0, 0, 0, 40, 0, 0, 0, 0, 0, 0, 0, 8,
];

/// A keep of entry 4: a head of one byte and no page.
pub const KEEP: [u8; 18] = [3, 0, 0, 0, 0, 0, 0, 0, 4, 0, 0, 0, 1, 9, 0, 0, 0, 0];

pub const SEAL: [u8; 1] = [2];

pub const ROOT: [u8; 32] = [7; 32];

/// The pieces one behind another.
pub fn joined(alloc: Global, pieces: &[&[u8]]) -> Result<Vec<u8>, AllocError> {
    let mut bytes = Vec::new(alloc);
    for piece in pieces {
        bytes.extend_from_slice(piece)?;
    }
    Ok(bytes)
}

/// The same as a batch.
#[tactic(auto, unfolding(avm_num::specs::Room::left))]
pub fn batch(alloc: Global, pieces: &[&[u8]]) -> Result<Room, AllocError> {
    let bytes = joined(alloc, pieces)?;
    let Ok(mut room) = Room::new(alloc, bytes.len()) else {
        return Err(AllocError);
    };
    room.put(&bytes);
    Ok(room)
}

/// The header of a new journal, up to its first gate.
pub fn header(alloc: Global) -> Result<Vec<u8>, AllocError> {
    let first = [0, 0, 0, 0, 0, 0, 0, 1];
    joined(
        alloc,
        &[
            b"AVMJ\x01".as_slice(),
            &KEY,
            &[0; 48],
            &first,
            &[0; 32],
            &[0; 8],
            &[0, 0, 0, 11],
            &HEAD,
            &[0; 4096],
        ],
    )
}

/// A new journal that has BOOT alone, and bytes behind its last gate.
pub fn store(alloc: Global, behind: &[u8]) -> Result<Vec<u8>, AllocError> {
    joined(
        alloc,
        &[
            header(alloc)?.as_slice(),
            &[1, 0, 0, 0, 54],
            &BOOT,
            &ROOT,
            behind,
        ],
    )
}

/// A base that begins at SNAP entry 4 behind three used leaves, and carries entry 3, which was signed at leaf 2.
pub fn base(alloc: Global) -> Result<Vec<u8>, AllocError> {
    joined(
        alloc,
        &[
            b"AVMJ\x02".as_slice(),
            &KEY,
            &[0; 48],
            &[0, 0, 0, 0, 0, 0, 0, 4],
            &ROOT,
            &[0, 0, 0, 0, 0, 0, 0, 3],
            &[0, 0, 0, 11],
            &HEAD,
            &[0; 4096],
            &[1, 0, 0, 0, 0, 0, 0, 0, 2],
            &ROOT,
            &[0, 0, 0, 33],
            &SEND[1..],
            &[1, 0, 0, 0, 55],
            &SNAP,
            &ROOT,
            &SEAL,
            &[0],
        ],
    )
}
