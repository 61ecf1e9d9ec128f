//! Evidence by its bytes (docs/FORMATS.md, "Evidence"), with authenticators signed here; all hashes by an independent program.

ghost use Rattle.std.specs.Prelude.{◌≡◌, IfOk};
ghost use Rattle.avm_num.specs.Room.{left};

use avm_auth::signed_text;
use avm_hash::Digest;
use avm_num::{NoMemory, Room};
use lms_tree::LmsKey;
use std::alloc::Global;

/// A number, and a hash in hexadecimal digits.
type Pair = (u64, &'static str);

/// The hashes at entries 1 and 3 of the guest that prints, at entry 3 where its line comes a count too early, and at entry 1 of the
/// guest that loops.
const FIRST: Pair = (
    1,
    "f3b9d0bca5b5a11c10c50ab8d080f9c796f7d2e15c017f78f3305a9594d5896f",
);

const LAST: Pair = (
    3,
    "a5803daa58f29168bf9adb4ec5761846940ca1033dded7964d7bf751bd521ccb",
);

const EARLY: Pair = (
    3,
    "55512af166f4cd7cacc688b4e899a06b5f2a71a4772237eea3a2385774ba19e2",
);

const LOOPED: Pair = (
    1,
    "fa4b329a2d9353405b70d01bd63f44464fb309d56258eaf2ee907029ce93903f",
);

/// Hashes of no log.
const SEVENS: &str = "0707070707070707070707070707070707070707070707070707070707070707";

const EIGHTS: &str = "0808080808080808080808080808080808080808080808080808080808080808";

/// The frames of the guest that prints, and the same with the line a count too early.
const BOOT: &str =
    "000000000000000101000000280000000000000000a0d314be794611a17de42cf222f7a4f0900ced411212e09e77eef95ca8602114";

const LINE: &str = "0000000000000002070000000a0000000000000005480a";

const EARLY_LINE: &str = "0000000000000002070000000a0000000000000004480a";

const HALT: &str = "0000000000000003090000001000000000000000060000000100000000";

/// What stands before the frames of a segment of the guest that prints, each piece that isn't zero behind its place.
const FRONT: [(usize, &str); 4] = [
    (0, "41564d53010000000000000001"),
    (45, "000004a801000000040000000001"),
    (184, "80"),
    (1241, "b70200101303800423a062001303a00023a0620073"),
];

/// AVME, the version, and the key of height 5 and w 8 with the id 00 to 0f and a seed of bytes 11.
const HEAD: &str =
    "41564d45010000000500000004000102030405060708090a0b0c0d0e0f84fa12b1dfa8b4afdc76ca3a26a35fb1870396261fd727890f2407e4df7f1289";

/// The evidence that is tried.
#[derive(Clone, Copy, Debug, PartialEq, Eq)]
pub enum Shown {
    /// The file isn't there.
    Missing,
    /// Entry 1 of the guest that prints and of the one that loops; a byte more; one pair twice.
    Double,
    Longer,
    Twice,
    /// Two pairs of no log, at entries 3 and 4.
    Three,
    Four,
    /// All entries of the guest that prints, and a pair of no log at entry 2.
    Fork,
    /// The same with the line a count too early, signed.
    Replay,
}

#[tactic(auto, unfolding(avm_num::specs::Room::left))]
fn room(alloc: Global, capacity: usize) -> Result<Room, NoMemory>
    ensures { IfOk result (λ r. left r ≡ capacity) }
{
    Room::new(alloc, capacity)
}

fn digest(alloc: Global, text: &str) -> Option<[u8; 32]> {
    let bytes = hex::decode(alloc, text).ok()?;
    bytes.as_slice().try_into().ok()
}

fn push(alloc: Global, out: &mut Vec<u8>, text: &str) -> Option<()> {
    let bytes = hex::decode(alloc, text).ok()?;
    out.extend_from_slice(&bytes).ok()
}

/// Appends an authenticator of a pair, signed at a leaf.
fn push_auth(alloc: Global, out: &mut Vec<u8>, key: &LmsKey, leaf: u32, pair: Pair) -> Option<()> {
    let (seq, hash) = pair;
    let hash = digest(alloc, hash)?;
    let mut sig = room(alloc, key.signature_len()).ok()?;
    if leaf < key.leaves() {
        key.sign(leaf, &signed_text(seq, &Digest(hash)), &mut sig);
    }
    out.extend_from_slice(&seq.to_be_bytes()).ok()?;
    out.extend_from_slice(&hash).ok()?;
    out.extend_from_slice(&1292u32.to_be_bytes()).ok()?;
    out.extend_from_slice(sig.bytes()).ok()
}

/// The key of all evidence. It is made once in each test, since that takes many hashes.
pub fn key(alloc: Global) -> Option<LmsKey> {
    let id = [0, 1, 2, 3, 4, 5, 6, 7, 8, 9, 10, 11, 12, 13, 14, 15];
    LmsKey::make(alloc, 5, 4, id, Digest([0x11; 32])).ok()
}

/// Evidence of two pairs of one number.
fn double(alloc: Global, key: &LmsKey, one: Pair, two: Pair) -> Option<Vec<u8>> {
    let mut out = Vec::new(alloc);
    push(alloc, &mut out, HEAD)?;
    out.push(1).ok()?;
    push_auth(alloc, &mut out, key, 0, one)?;
    push_auth(alloc, &mut out, key, 1, two)?;
    Some(out)
}

fn longer(alloc: Global, key: &LmsKey) -> Option<Vec<u8>> {
    let mut out = double(alloc, key, FIRST, LOOPED)?;
    out.push(0).ok()?;
    Some(out)
}

/// Evidence of frames from entry 1 on, and a pair that isn't theirs.
fn fork(alloc: Global, key: &LmsKey) -> Option<Vec<u8>> {
    let mut out = Vec::new(alloc);
    push(alloc, &mut out, HEAD)?;
    out.push(2).ok()?;
    out.extend_from_slice(&1u64.to_be_bytes()).ok()?;
    out.extend_from_slice(&[0; 32]).ok()?;
    out.extend_from_slice(&105u32.to_be_bytes()).ok()?;
    for frame in [BOOT, LINE, HALT] {
        push(alloc, &mut out, frame)?;
    }
    push_auth(alloc, &mut out, key, 0, LAST)?;
    push_auth(alloc, &mut out, key, 1, (2, SEVENS))?;
    Some(out)
}

fn put(all: &mut [u8], at: usize, bytes: &[u8]) {
    for i in 0..bytes.len() {
        if at < all.len() && i < all.len() - at {
            all[at + i] = bytes[i];
        }
    }
}

/// Evidence of a segment that doesn't replay.
fn replay(alloc: Global, key: &LmsKey) -> Option<Vec<u8>> {
    let mut front = vec![in alloc; 0u8; 5337].ok()?;
    for (at, text) in FRONT {
        let bytes = hex::decode(alloc, text).ok()?;
        put(&mut front, at, &bytes);
    }
    let mut out = Vec::new(alloc);
    push(alloc, &mut out, HEAD)?;
    out.push(3).ok()?;
    out.extend_from_slice(&5442u32.to_be_bytes()).ok()?;
    out.extend_from_slice(&front).ok()?;
    for frame in [BOOT, EARLY_LINE, HALT] {
        push(alloc, &mut out, frame)?;
    }
    push_auth(alloc, &mut out, key, 0, EARLY)?;
    Some(out)
}

impl Shown {
    /// Its bytes; none where the file isn't there.
    pub fn bytes(self, alloc: Global, key: &LmsKey) -> Option<Vec<u8>> {
        match self {
            Shown::Missing => None,
            Shown::Double => double(alloc, key, FIRST, LOOPED),
            Shown::Longer => longer(alloc, key),
            Shown::Twice => double(alloc, key, FIRST, FIRST),
            Shown::Three => double(alloc, key, (3, SEVENS), (3, EIGHTS)),
            Shown::Four => double(alloc, key, (4, SEVENS), (4, EIGHTS)),
            Shown::Fork => fork(alloc, key),
            Shown::Replay => replay(alloc, key),
        }
    }
}
