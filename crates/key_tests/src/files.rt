ghost use Rattle.std.specs.Prelude.{◌≡◌, IfOk};
ghost use Rattle.avm_num.specs.Room.{left};

use avm_hash::Digest;
use avm_num::{NoMemory, Room};
use lms_signer::{KeyFile, Signer, put_key, read_key};
use std::alloc::Global;

const ID: [u8; 16] = [0, 1, 2, 3, 4, 5, 6, 7, 8, 9, 10, 11, 12, 13, 14, 15];

// The private key file of height 5, w 8, this id and a seed of bytes 11 in hex.
const FILE: [u8; 61] = [
    65, 86, 77, 75, 1, 0, 0, 0, 5, 0, 0, 0, 4, 0, 1, 2, 3, 4, 5, 6, 7, 8, 9, 10, 11, 12, 13, 14,
    15, 17, 17, 17, 17, 17, 17, 17, 17, 17, 17, 17, 17, 17, 17, 17, 17, 17, 17, 17, 17, 17, 17, 17,
    17, 17, 17, 17, 17, 17, 17, 17, 17,
];

// Its public key, from a program in Python that was written from the standard alone.
const PUBLIC: [u8; 56] = [
    0, 0, 0, 5, 0, 0, 0, 4, 0, 1, 2, 3, 4, 5, 6, 7, 8, 9, 10, 11, 12, 13, 14, 15, 132, 250, 18,
    177, 223, 168, 180, 175, 220, 118, 202, 58, 38, 163, 95, 177, 135, 3, 150, 38, 31, 215, 39,
    137, 15, 36, 7, 228, 223, 127, 18, 137,
];

// A place of the file, a byte there, and whether the file is still one.
const CHANGES: [(usize, u8, bool); 16] = [
    (0, 64, false),
    (3, 74, false),
    (4, 0, false),
    (4, 2, false),
    (5, 1, false),
    (8, 4, false),
    (8, 6, true),
    (8, 7, true),
    (8, 8, false),
    (9, 1, false),
    (12, 0, false),
    (12, 1, true),
    (12, 5, false),
    (13, 255, true),
    (29, 255, true),
    (60, 0, true),
];

// An empty room.
#[tactic(auto, unfolding(avm_num::specs::Room::left))]
fn room(alloc: Global, capacity: usize) -> Result<Room, NoMemory>
    ensures { IfOk result (λ r. left r ≡ capacity) }
{
    Room::new(alloc, capacity)
}

#[test]
fn changed_files(rt: HostRuntime) {
    for (at, value, good) in CHANGES {
        let mut file = FILE;
        assert!(rt; at < 61);
        file[at] = value;
        assert_eq!(rt; read_key(&file).is_some(), good, "{value} at {at}");
    }
    assert!(rt; read_key(&FILE[..60]).is_none());
    assert!(rt; read_key(&[]).is_none());
}

#[test]
fn a_key_and_its_file(rt: HostRuntime) {
    let key = KeyFile {
        lms: 5,
        ots: 4,
        id: ID,
        seed: Digest([17; 32]),
    };
    let Ok(mut out) = room(rt.alloc(), 61) else {
        panic!(rt; "no memory")
    };
    put_key(&mut out, &key);
    assert!(rt; out.bytes() == FILE.as_slice());
    let Ok(signer) = Signer::new(rt.alloc(), key) else {
        panic!(rt; "no memory")
    };
    assert!(rt; signer.public() == PUBLIC);
}
