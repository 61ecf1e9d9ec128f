//! Files and stores on which nothing is recorded.

use super::running::{NONE, bytes_of, disk_of, record_files, record_on};
use super::stores::{KEY, OTHER, alone};
use avm_outside::NoDisk;
use std::alloc::Global;
use test_guests::PRINTS;

/// The store of the guest that prints, recorded to its halt: BOOT, OUT, HALT and a seal, in a record each.
pub fn printed(alloc: Global) -> Option<Vec<u8>> {
    let mut disk = disk_of(alloc, &alone(alloc, PRINTS)?, 0)?;
    record_on(alloc, KEY, b"end 100\n", &mut disk, NONE)?;
    bytes_of(alloc, &mut disk)
}

/// The bytes with one byte set.
pub fn changed(alloc: Global, bytes: &[u8], at: usize, value: u8) -> Option<Vec<u8>> {
    let mut out = Vec::from_slice(alloc, bytes).ok()?;
    *out.get_mut(at)? = value;
    Some(out)
}

/// The store with another key, whose id begins with ff.
pub fn other_key(alloc: Global, store: &[u8]) -> Option<Vec<u8>> {
    changed(alloc, store, 13, 0xff)
}

/// Whether a store is refused with this line, and no byte of it and no file changes.
fn refuses(alloc: Global, key: &[u8], store: &[u8], line: &str) -> Option<bool> {
    let mut disk = disk_of(alloc, store, 0)?;
    let ran = record_on(alloc, key, b"end 200\n", &mut disk, NONE)?;
    Some(
        ran.ended(line, 2)
            && ["p", "c", "a"].iter().all(|name| ran.file(name).is_empty())
            && bytes_of(alloc, &mut disk)?.as_slice() == store,
    )
}

/// The place of a byte, its value, and the line: a record without items behind each gate, the first gate closed, no magic, a head of another
/// version, the key's type, the last byte of BOOT's root, and OUT one step early. The last record is the seal.
pub const CHANGES: [(usize, u8, &str); 10] = [
    (5405, 0, "refused damaged 5401\n"),
    (5464, 0, "refused damaged 5460\n"),
    (5493, 0, "refused damaged 5489\n"),
    (5528, 0, "refused damaged 5524\n"),
    (5401, 0, "refused nostore\n"),
    (0, 0, "refused nostore\n"),
    (113, 3, "refused nostore\n"),
    (8, 4, "refused nostore\n"),
    (5459, 0, "refused journal 1\n"),
    (5486, 4, "refused journal 2\n"),
];

fn changed_stores(alloc: Global) -> Option<bool> {
    let store = printed(alloc)?;
    for (at, value, line) in CHANGES {
        if !refuses(alloc, KEY, &changed(alloc, &store, at, value)?, line)? {
            return Some(false);
        }
    }
    let of_another = other_key(alloc, &store)?;
    Some(
        refuses(alloc, KEY, b"", "refused nostore\n")?
            && refuses(alloc, KEY, &of_another, "refused key\n")?
            && refuses(alloc, OTHER, &store, "refused key\n")?,
    )
}

#[test]
fn a_store_that_is_changed_is_refused(rt: HostRuntime) {
    assert_eq!(rt; changed_stores(rt.alloc()), Some(true));
}

type Files<'a> = &'a [(&'a str, &'a [u8])];

/// The files that are there, and the line. The key is judged before the script.
const MISSING: [(Files<'static>, &str); 5] = [
    (&[], "refused file --key\n"),
    (&[("s", b"end 0\n")], "refused file --key\n"),
    (
        &[("k", b"AVMK"), ("s", b"no script")],
        "refused file --key\n",
    ),
    (&[("k", KEY)], "refused file --script\n"),
    (&[("k", KEY), ("s", b"end 0")], "refused file --script\n"),
];

/// Whether a file is refused before the disk is called; one that isn't there makes no difference.
fn refuses_file(alloc: Global, store: &[u8], files: Files<'_>, line: &str) -> Option<bool> {
    let mut disk = disk_of(alloc, store, 0)?;
    let calls = disk.calls();
    let ran = record_files(alloc, files, &mut disk, NONE)?;
    let absent = record_files(alloc, files, &mut NoDisk::new(), NONE)?;
    Some(ran.ended(line, 3) && disk.calls() == calls && absent.ended(line, 3))
}

fn missing_files(alloc: Global) -> Option<bool> {
    let store = alone(alloc, PRINTS)?;
    for (files, line) in MISSING {
        if !refuses_file(alloc, &store, files, line)? {
            return Some(false);
        }
    }
    let files: Files<'_> = &[("k", KEY), ("s", b"end 0\n")];
    Some(record_files(alloc, files, &mut NoDisk::new(), NONE)?.ended("fault disk\n", 4))
}

#[test]
fn files_are_judged_before_the_store(rt: HostRuntime) {
    assert_eq!(rt; missing_files(rt.alloc()), Some(true));
}
