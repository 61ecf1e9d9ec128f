//! Stores that are retained, and runs on what that leaves. The lines, roots and hashes are those of an independent program.

use super::running::{
    bytes_of, disk_of, lines_of, lists_as, record_on, retain_on, retain_printing,
};
use super::stores::{alone, counted, echo, one_message};
use avm_hash::hash;
use avm_outside::MemDisk;
use std::alloc::Global;
use test_guests::SPINS;

/// The lines of the guest's store that counts, when it is retired.
pub const RETIRED: &str =
    "1 BOOT 0 9259009b9311f8a6d04c440087cab4d78ddf3223d91b6c5c08a77c8a0ba9fea4\n2 OUT 1024 48\n3 HALT 1024 1 0\n4 SNAP 1024 d371e5ef6b9b6ee48f96cf6189754b5a62e6b7eaaf5c902e66e8e3594289e564\nseal 4\nretired 4\n";

/// The lines of its base.
pub const BASE: &str =
    "4 SNAP 1024 d371e5ef6b9b6ee48f96cf6189754b5a62e6b7eaaf5c902e66e8e3594289e564\nseal 4\n";

/// Whether a disk has so many bytes of this SHA-256.
fn hashes_as(alloc: Global, disk: &mut MemDisk, size: usize, digest: &str) -> Option<bool> {
    let bytes = bytes_of(alloc, disk)?;
    let text = hex::encode(alloc, &hash(&bytes).0).ok()?;
    Some(bytes.len() == size && text.as_str() == digest)
}

/// Whether a retain is told, and leaves the retired store and its base.
fn is_retained(alloc: Global, store: &mut MemDisk, base: &mut MemDisk) -> Option<bool> {
    Some(
        retain_on(alloc, store, 4, base)?.ended("retained 4\n", 0)
            && lists_as(alloc, store, RETIRED)
            && lists_as(alloc, base, BASE)
            && hashes_as(
                alloc,
                store,
                6802,
                "eeb4a4aa5f74ecf3052fe8a8c983fe32d90c7c78c18deefa0207d5941aad83b7",
            )?
            && hashes_as(
                alloc,
                base,
                5468,
                "79b4f639adea3664035c5676a0767e8dda6c10c174240a3516b6c9f192e912a1",
            )?,
    )
}

/// A second retain changes nothing; the base goes on, and the retired store doesn't.
fn retained_twice(alloc: Global) -> Option<bool> {
    let mut store = disk_of(alloc, &counted(alloc)?, 0)?;
    let mut base = disk_of(alloc, &[], 0)?;
    let untold = retain_printing(alloc, &mut store, 4, &mut base, 1)?.ended("", 4);
    let twice = is_retained(alloc, &mut store, &mut base)?
        && is_retained(alloc, &mut store, &mut base)?;
    let over = record_on(alloc, b"end 2000\n", &mut store)?;
    let on = record_on(alloc, b"end 2000\n", &mut base)?;
    Some(
        untold
            && twice
            && over.ended("refused retired\n", 2)
            && lists_as(alloc, &mut store, RETIRED)
            && on.ended("recorded entries 4 dropped 0 leaves 1 halted\n", 0)
            && lists_as(alloc, &mut base, BASE),
    )
}

#[test]
fn a_store_is_retained_twice(rt: HostRuntime) {
    assert_eq!(rt; retained_twice(rt.alloc()), Some(true));
}

/// The lines of the guest that spins, when it has moved twice and is recorded on.
const MOVED_TWICE: &str =
    "6 SNAP 5120 1278a9ecd3c97845c97caea9488cf37d160854d6146cf03ec54013cdc69f2b20\n7 CONIN 5500 41\n8 SNAP 6144 dfacad6189314a9bfde3c3bb25b34a151cadff6e5e353f8b35bf9b8fb2a91b7b\nseal 8\n9 SNAP 7168 afb374a82bf3686d004870b81481cc81080f4edf2c779572126a39096f267a53\n10 SNAP 8192 9de88b08e810c75a33e213edc6112b6d0ae1e6e749d0e5d4dfd378b9c7f77fcb\nseal 10\n";

/// The size of a store that moved, and its SHA-256.
const LEFT: [(usize, &str); 3] = [
    (
        10553,
        "94dbcff298a1e7eed65a4473cf6c4f8678aa5a14ee7c61aece1a8710f5563020",
    ),
    (
        10584,
        "64f1be99f20d7ac6384efb5bb7c1d175184d8d45fd237e54430064a31d27ab03",
    ),
    (
        9304,
        "c41404785c491930f41f3b1c6beecc1a76023bcd78b9b9babebd77949bb05669",
    ),
];

/// A store moves to a base, which is recorded on and moves to another.
fn moved_twice(alloc: Global) -> Option<bool> {
    let mut first = alone(alloc, SPINS)?;
    let mut second = disk_of(alloc, &[], 0)?;
    let mut third = disk_of(alloc, &[], 0)?;
    record_on(alloc, b"end 5000\n", &mut first)?;
    let moved = retain_on(alloc, &mut first, 3, &mut second)?;
    let on = record_on(alloc, b"at 5500 console 41\nend 7000\n", &mut second)?;
    let again = retain_on(alloc, &mut second, 6, &mut third)?;
    let last = record_on(alloc, b"end 8500\n", &mut third)?;
    Some(
        moved.ended("retained 3\n", 0)
            && on.ended("recorded entries 8 dropped 0 leaves 2 running\n", 0)
            && again.ended("retained 6\n", 0)
            && last.ended("recorded entries 10 dropped 0 leaves 3 running\n", 0)
            && lists_as(alloc, &mut third, MOVED_TWICE)
            && hashes_as(alloc, &mut first, LEFT[0].0, LEFT[0].1)?
            && hashes_as(alloc, &mut second, LEFT[1].0, LEFT[1].1)?
            && hashes_as(alloc, &mut third, LEFT[2].0, LEFT[2].1)?,
    )
}

#[test]
fn a_store_moves_twice(rt: HostRuntime) {
    assert_eq!(rt; moved_twice(rt.alloc()), Some(true));
}

/// The lines of the base behind the message and before its answer.
const ANSWERED: &str =
    "27 SNAP 24576 73f78f981c3410bb7f1144bf97146ce5b49418c1bc99a01fa606d28ef48ae1b5\n28 SEND 24600 1 1 70696e67\nseal 28\n";

/// The bytes of the first packet of a file with its front, and those behind it.
fn split_first(packets: &[u8]) -> Option<(&[u8], &[u8])> {
    let size = packets.first_chunk::<8>()?;
    let len = u32::from_be_bytes([size[4], size[5], size[6], size[7]]) as usize;
    let end = len.checked_add(8)?;
    Some((packets.get(..end)?, packets.get(end..)?))
}

/// A base carries the message and its answer: both packets are sent again with the same bytes.
fn packets_again(alloc: Global) -> Option<bool> {
    let mut store = echo(alloc)?;
    let mut base = disk_of(alloc, &[], 0)?;
    let script = one_message(alloc)?;
    let whole = record_on(alloc, &script, &mut store)?;
    let (acknowledged, answer) = split_first(whole.packets())?;
    let moved = retain_on(alloc, &mut store, 27, &mut base)?;
    let listed = lists_as(alloc, &mut base, ANSWERED);
    let repeated = record_on(alloc, &script, &mut base)?;
    let resent = record_on(alloc, b"at 0 resend 1\nend 60000\n", &mut base)?;
    Some(
        whole.ended("recorded entries 28 dropped 0 leaves 3 waiting\n", 0)
            && moved.ended("retained 27\n", 0)
            && listed
            && repeated.ended(
                "dropped repeated 24600\nrecorded entries 28 dropped 1 leaves 3 waiting\n",
                0,
            )
            && repeated.packets() == acknowledged
            && resent.ended("recorded entries 28 dropped 0 leaves 3 waiting\n", 0)
            && resent.packets() == answer
            && !answer.is_empty()
            && lines_of(alloc, &mut store)?
                .bytes()
                .ends_with(b"seal 28\nretired 27\n"),
    )
}

#[test]
fn packets_are_sent_again_from_a_base(rt: HostRuntime) {
    assert_eq!(rt; packets_again(rt.alloc()), Some(true));
}
