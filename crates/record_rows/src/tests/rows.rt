//! Guests without peers. The lines and roots are those of an independent program.

use super::running::{NONE, bytes_of, disk_of, lines_of, lists_as, record_on};
use super::stores::{KEY, alone};
use std::alloc::{AllocError, Global};
use test_guests::{COUNTS, PRINTS, SPINS};

/// A guest, its script, the line of its recording, the console, and the lines of its store.
type Row = (
    &'static [u32],
    &'static [u8],
    &'static str,
    &'static [u8],
    &'static str,
);

/// A jump to an odd half word, a branch to one, a load across a half word, no instruction, a jump whose lowest bit is cleared; a line; a byte,
/// and a halt where a snapshot is due.
const GUESTS: [Row; 7] = [
    (
        &[0x8000_00b7, 0x00b0_8093, 0x0000_8067],
        b"end 100\n",
        "recorded entries 2 dropped 0 leaves 1 halted\n",
        b"",
        "1 BOOT 0 6b5a0176f7b256640832c5e5a30b4a0880825e3f3f9c8d6bf8edaa751b78cd1e\n2 HALT 3 4 2147483658\nseal 2\n",
    ),
    (
        &[0x0000_0163],
        b"end 100\n",
        "recorded entries 2 dropped 0 leaves 1 halted\n",
        b"",
        "1 BOOT 0 ad637e7c31a3f4075802b73bc9872f6833bed149b129c4c7509c1a4420ea77d6\n2 HALT 1 4 2147483650\nseal 2\n",
    ),
    (
        &[0x8000_00b7, 0x0010_9103],
        b"end 100\n",
        "recorded entries 2 dropped 0 leaves 1 halted\n",
        b"",
        "1 BOOT 0 da54d62a4c06ac96d7d078df2b470db27602796e7c260e42ec0673b842983474\n2 HALT 2 5 2147483649\nseal 2\n",
    ),
    (
        &[0],
        b"end 100\n",
        "recorded entries 2 dropped 0 leaves 1 halted\n",
        b"",
        "1 BOOT 0 7bb2b01f8d2da1f78e9fb9ae7986483054fdab046fcbbe45ba1da215875330a6\n2 HALT 1 3 0\nseal 2\n",
    ),
    (
        &[0x8000_00b7, 0x0090_8093, 0x0000_8067],
        b"end 100\n",
        "recorded entries 1 dropped 0 leaves 1 running\n",
        b"",
        "1 BOOT 0 00f54919b657189332ba5f15c33100ef433071e58459fc7f64e4e267275a40b4\nseal 1\n",
    ),
    (
        PRINTS,
        b"end 100\n",
        "recorded entries 3 dropped 0 leaves 1 halted\n",
        b"H\n",
        "1 BOOT 0 a0d314be794611a17de42cf222f7a4f0900ced411212e09e77eef95ca8602114\n2 OUT 5 480a\n3 HALT 6 1 0\nseal 3\n",
    ),
    (
        COUNTS,
        b"end 2000\n",
        "recorded entries 4 dropped 0 leaves 1 halted\n",
        b"H",
        "1 BOOT 0 9259009b9311f8a6d04c440087cab4d78ddf3223d91b6c5c08a77c8a0ba9fea4\n2 OUT 1024 48\n3 HALT 1024 1 0\n4 SNAP 1024 d371e5ef6b9b6ee48f96cf6189754b5a62e6b7eaaf5c902e66e8e3594289e564\nseal 4\n",
    ),
];

fn is_recorded(alloc: Global, row: &Row) -> Option<bool> {
    let (words, script, line, console, lines) = row;
    let mut disk = disk_of(alloc, &alone(alloc, words)?, 0)?;
    let ran = record_on(alloc, KEY, script, &mut disk, NONE)?;
    Some(
        ran.ended(line, 0)
            && ran.file("c") == *console
            && ran.file("p").is_empty()
            && lists_as(alloc, &mut disk, lines),
    )
}

#[test]
fn guests_that_are_alone(rt: HostRuntime) {
    for row in &GUESTS {
        assert_eq!(rt; is_recorded(rt.alloc(), row), Some(true));
    }
}

/// Appends the hex digits of so many bytes 41.
fn push_letters(script: &mut Vec<u8>, count: usize) -> Result<(), AllocError> {
    script.extend_from_slice(b"at 0 console ")?;
    for _ in 0..count {
        script.extend_from_slice(b"41")?;
    }
    script.push(b'\n')?;
    Ok(())
}

/// Lines of 256 bytes fill the guest's input.
fn lines_past_the_input(alloc: Global) -> Option<bool> {
    let mut script = Vec::new(alloc);
    for count in [256, 256, 256, 256, 1] {
        push_letters(&mut script, count).ok()?;
    }
    script.extend_from_slice(b"end 100\n").ok()?;
    let mut disk = disk_of(alloc, &alone(alloc, SPINS)?, 0)?;
    let ran = record_on(alloc, KEY, &script, &mut disk, NONE)?;
    Some(ran.ended(
        "dropped full 0\nrecorded entries 5 dropped 1 leaves 1 running\n",
        0,
    ))
}

#[test]
fn a_full_input_drops_what_comes(rt: HostRuntime) {
    assert_eq!(rt; lines_past_the_input(rt.alloc()), Some(true));
}

const LETTER: &[u8] = b"at 0 console 41\nend 0\n";

/// Whether 32 runs are recorded, each with the next leaf.
fn uses_all_leaves(alloc: Global, disk: &mut avm_outside::MemDisk) -> Option<bool> {
    for r in 1..=32u64 {
        let line = format!(in alloc;
            "recorded entries {} dropped 0 leaves {r} running\n",
            r + 1
        ).ok()?;
        if !record_on(alloc, KEY, LETTER, disk, NONE)?.ended(&line, 0) {
            return Some(false);
        }
    }
    Some(true)
}

/// Each run uses a leaf, and the key has 32. A run that has none changes no byte of the store and no file.
fn runs_until_no_leaf_is_left(alloc: Global) -> Option<bool> {
    let mut disk = disk_of(alloc, &alone(alloc, SPINS)?, 0)?;
    if !uses_all_leaves(alloc, &mut disk)? {
        return Some(false);
    }
    let lines = lines_of(alloc, &mut disk)?;
    let bytes = bytes_of(alloc, &mut disk)?;
    let ran = record_on(alloc, KEY, LETTER, &mut disk, NONE)?;
    let again = lines_of(alloc, &mut disk)?;
    Some(
        ran.ended("refused leaves\n", 2)
            && ["p", "c", "a"].iter().all(|name| ran.file(name).is_empty())
            && again.bytes() == lines.bytes()
            && bytes_of(alloc, &mut disk)?.as_slice() == bytes.as_slice(),
    )
}

#[test]
fn a_key_has_as_many_runs_as_leaves(rt: HostRuntime) {
    assert_eq!(rt; runs_until_no_leaf_is_left(rt.alloc()), Some(true));
}
