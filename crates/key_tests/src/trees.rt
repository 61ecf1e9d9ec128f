ghost use Rattle.std.specs.Prelude.{◌≡◌, IfOk};
ghost use Rattle.avm_num.specs.Room.{left};

use avm_hash::{Digest, hash};
use avm_num::{NoMemory, Room};
use lms_ots::{chains, sign};
use lms_tree::{LmsKey, MakeFault, is_public_key, verify};
use std::alloc::Global;
use std::process::Abort;

const ID: [u8; 16] = [0, 1, 2, 3, 4, 5, 6, 7, 8, 9, 10, 11, 12, 13, 14, 15];

// The length of the longest case, and one byte more.
const LONGEST: usize = 8745;

// Per type the length of a signature at height 5, and the digests of key | text | signature at the leaves 0 and 31, from a
// program in Python that was written from the standard alone.
const CASES: [(u32, usize, [u8; 32], [u8; 32]); 4] = [
    (
        1,
        8684,
        [
            158, 8, 196, 215, 205, 14, 136, 219, 88, 155, 178, 192, 238, 135, 0, 113, 158, 223,
            124, 229, 25, 141, 212, 31, 114, 146, 84, 147, 184, 193, 73, 98,
        ],
        [
            4, 193, 237, 48, 99, 111, 188, 8, 57, 30, 136, 1, 65, 115, 133, 247, 233, 200, 229,
            185, 9, 74, 172, 161, 72, 183, 118, 130, 225, 7, 101, 4,
        ],
    ),
    (
        2,
        4460,
        [
            131, 152, 217, 121, 173, 43, 181, 68, 210, 90, 116, 207, 248, 5, 94, 61, 129, 73, 185,
            68, 19, 204, 67, 133, 74, 254, 77, 134, 18, 63, 40, 210,
        ],
        [
            65, 233, 12, 245, 129, 22, 189, 243, 58, 32, 9, 122, 122, 171, 2, 7, 10, 81, 144, 45,
            42, 162, 30, 218, 160, 114, 211, 169, 253, 112, 103, 235,
        ],
    ),
    (
        3,
        2348,
        [
            126, 84, 218, 201, 229, 182, 25, 239, 109, 249, 170, 54, 80, 211, 138, 142, 243, 125,
            238, 125, 239, 136, 146, 183, 70, 192, 180, 110, 170, 73, 155, 238,
        ],
        [
            6, 99, 219, 65, 168, 183, 32, 209, 48, 184, 193, 9, 131, 199, 234, 204, 35, 198, 45,
            189, 162, 227, 69, 91, 239, 190, 220, 246, 192, 240, 49, 47,
        ],
    ),
    (
        4,
        1292,
        [
            177, 75, 45, 48, 224, 12, 107, 136, 55, 27, 189, 93, 176, 17, 71, 186, 163, 171, 101,
            1, 51, 156, 94, 92, 219, 202, 56, 51, 194, 225, 51, 240,
        ],
        [
            138, 24, 105, 129, 142, 107, 56, 242, 22, 190, 251, 204, 199, 173, 117, 71, 241, 172,
            85, 225, 184, 32, 208, 87, 66, 116, 98, 9, 89, 241, 88, 152,
        ],
    ),
];

// The roots of trees of height 20 and 25 by a leaf and made-up nodes beside its way up, from the same program.
const TALL: [(u32, u32, [u8; 32]); 2] = [
    (
        8,
        1048575,
        [
            209, 92, 60, 18, 159, 235, 161, 109, 167, 2, 215, 203, 235, 2, 135, 194, 207, 136, 67,
            227, 21, 248, 152, 221, 224, 194, 211, 46, 63, 243, 148, 20,
        ],
    ),
    (
        9,
        33554430,
        [
            98, 181, 130, 107, 8, 212, 207, 67, 151, 198, 198, 168, 3, 104, 185, 250, 89, 55, 180,
            138, 92, 65, 46, 173, 60, 23, 248, 137, 93, 89, 117, 51,
        ],
    ),
];

fn seed() -> Digest {
    let mut seed = [0u8; 32];
    for i in 0..32u8 {
        seed[i as usize] = 100 + i;
    }
    Digest(seed)
}

// An empty room.
#[tactic(auto, unfolding(avm_num::specs::Room::left))]
fn room(alloc: Global, capacity: usize) -> Result<Room, NoMemory>
    ensures { IfOk result (λ r. left r ≡ capacity) }
{
    Room::new(alloc, capacity)
}

// Whether the signature behind a key and a text of four bytes is valid.
fn holds(all: &[u8]) -> bool {
    if all.len() < 60 {
        return false;
    }
    let (key, rest) = all.split_at(56);
    let (text, sig) = rest.split_at(4);
    verify(key, text, sig)
}

// Whether it is with one byte replaced.
fn holds_with(all: &mut [u8], at: usize, value: u8) -> bool {
    if at >= all.len() {
        return true;
    }
    let old = all[at];
    all[at] = value;
    let valid = holds(all);
    all[at] = old;
    valid
}

// Each byte of the key, the text, the signature's front and its path, and each third of the rest.
fn refuses_other_bytes(rt: &impl Abort, all: &mut [u8]) {
    let len = all.len();
    for i in 0..len {
        if (i < 104 || i + 164 >= len || i % 3 == 0) && i < all.len() {
            let other = all[i] ^ 1;
            assert!(rt; !holds_with(all, i, other), "byte {i}");
        }
    }
}

// Types that are no types or another's, and a leaf past the end.
fn refuses_other_numbers(rt: &impl Abort, all: &mut [u8]) {
    let len = all.len();
    assert!(rt; len >= 300);
    let changes = [
        (3, 6),
        (3, 10),
        (7, 0),
        (7, 5),
        (63, 32),
        (67, 0),
        (67, 5),
        (len - 161, 6),
        (len - 161, 10),
    ];
    for (at, value) in changes {
        assert!(rt; !holds_with(all, at, value), "{value} at {at}");
    }
}

// A length that is one short or one long, of the signature and of the key.
fn refuses_other_lengths(rt: &impl Abort, whole: &[u8], len: usize) {
    assert!(rt; len >= 300);
    assert!(rt; len < whole.len());
    assert!(rt; !holds(&whole[..len - 1]));
    assert!(rt; !holds(&whole[..len + 1]));
    let sig = &whole[60..len];
    let (short, _) = whole.split_at(55);
    refuses_key(rt, short, sig);
    let (long, _) = whole.split_at(57);
    refuses_key(rt, long, sig);
}

fn refuses_key(rt: &impl Abort, key: &[u8], sig: &[u8]) {
    assert!(rt; !verify(key, b"text", sig));
    assert!(rt; !is_public_key(key));
}

fn leaf_case(rt: &impl Abort, alloc: Global, key: &LmsKey, q: u32, len: usize, digest: &[u8; 32]) {
    let mut whole = [0u8; LONGEST];
    assert!(rt; q < key.leaves());
    let Ok(mut out) = room(alloc, 60 + key.signature_len()) else {
        panic!(rt; "no memory")
    };
    out.put(&key.public());
    out.put(b"text");
    key.sign(q, b"text", &mut out);
    let all = out.bytes();
    let end = all.len();
    assert!(rt; end >= 60 && end < LONGEST);
    assert_eq!(rt; end - 60, len);
    whole[..end].copy_from_slice(all);
    assert!(rt; hash(&whole[..end]).0 == *digest, "digest at leaf {q}");
    assert!(rt; holds(&whole[..end]));
    refuses_other_lengths(rt, &whole, end);
    refuses_other_numbers(rt, &mut whole[..end]);
    refuses_other_bytes(rt, &mut whole[..end]);
}

#[test]
fn height_five(rt: HostRuntime) {
    for (ots, len, first, last) in CASES {
        assert!(rt; 1 <= ots && ots <= 4);
        let Ok(key) = LmsKey::make(rt.alloc(), 5, ots, ID, seed()) else {
            panic!(rt; "no memory")
        };
        assert!(rt; is_public_key(&key.public()));
        assert_eq!(rt; key.signature_len(), len);
        leaf_case(&rt, rt.alloc(), &key, 0, len, &first);
        leaf_case(&rt, rt.alloc(), &key, 31, len, &last);
    }
}

#[test]
fn heights_that_are_too_high(rt: HostRuntime) {
    for lms in [8, 9] {
        match LmsKey::make(rt.alloc(), lms, 4, ID, seed()) {
            Err(MakeFault::Height) => {}
            _ => panic!(rt; "type {lms}"),
        }
    }
}

// A signature in a tree of height 20 or 25.
fn tall_case(rt: &impl Abort, alloc: Global, lms: u32, q: u32, root: &[u8; 32]) {
    let mut whole = [0u8; LONGEST];
    let Ok(mut out) = room(alloc, 60 + 4 + 36 + 32 * chains(4) + 4) else {
        panic!(rt; "no memory")
    };
    out.put_u32(lms);
    out.put_u32(4);
    out.put(&ID);
    out.put(root);
    out.put(b"text");
    out.put_u32(q);
    sign(4, &ID, q, &seed(), b"text", &mut out);
    out.put_u32(lms);
    let front = out.bytes();
    let len = front.len();
    assert!(rt; len == 1192);
    whole[..len].copy_from_slice(front);
    for k in 0..800 {
        whole[len + k] = (k % 251) as u8;
    }
    let height = if lms == 8 { 20 } else { 25 };
    let end = len + 32 * height;
    assert!(rt; holds(&whole[..end]));
    assert!(rt; !holds(&whole[..end - 32]));
    assert!(rt; !holds(&whole[..end + 32]));
    assert!(rt; !holds_with(&mut whole[..end], end - 1, 250));
    assert!(rt; !holds_with(&mut whole[..end], 60, 255));
}

#[test]
fn heights_that_are_only_verified(rt: HostRuntime) {
    for (lms, q, root) in TALL {
        tall_case(&rt, rt.alloc(), lms, q, &root);
    }
}
