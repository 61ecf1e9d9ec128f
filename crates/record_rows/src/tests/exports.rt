//! Entries exported of stores. The sizes and hashes of the segments are those of an independent program.

use super::refusals::{CHANGES, changed, other_key, printed};
use super::running::{Fails, NONE, OLD, Ran, bytes_of, disk_of, export_on, record_on};
use super::stores::{KEY, alone};
use avm_hash::hash;
use avm_outside::NoDisk;
use std::alloc::Global;
use test_guests::COUNTS;

/// The store of the guest that counts, recorded to its halt.
fn counted(alloc: Global) -> Option<Vec<u8>> {
    let mut disk = disk_of(alloc, &alone(alloc, COUNTS)?, 0)?;
    record_on(alloc, KEY, b"end 2000\n", &mut disk, NONE)?;
    bytes_of(alloc, &mut disk)
}

fn export(alloc: Global, store: &[u8], range: (u64, u64)) -> Option<Ran> {
    export_on(alloc, range, &mut disk_of(alloc, store, 0)?, NONE)
}

/// Whether an export is refused with this line, and leaves the segment's file.
fn refuses(alloc: Global, store: &[u8], range: (u64, u64), line: &str) -> Option<bool> {
    let ran = export(alloc, store, range)?;
    Some(ran.ended(line, 2) && ran.file("s") == OLD)
}

/// The numbers asked for, the line, the size of the segment and its SHA-256.
type Row = ((u64, u64), &'static str, usize, &'static str);

const PRINTED: [Row; 3] = [
    (
        (1, 3),
        "exported 1 to 3\n",
        5442,
        "ff1f654daa30b0636f2fec52266ec9e63fa7f722e493c5667ac318e50c68c349",
    ),
    (
        (1, 2),
        "exported 1 to 2\n",
        5413,
        "8ce0cbf160ad7421b5c4ce674cfcf2bbdba986411124e3d0afd2e9f2e6c03617",
    ),
    (
        (1, 1),
        "exported 1 to 1\n",
        5390,
        "6e56c2bedc0b22e015f7348092cedce19ff83ddb08dec4c7a86e7bb4b0bc9dd8",
    ),
];

const COUNTED: [Row; 2] = [
    (
        (4, 4),
        "exported 4 to 4\n",
        5390,
        "e10eab199432801616e7353cb5d7cf4f6713adcd50260b7cb61c0f8ed05f937f",
    ),
    (
        (1, 4),
        "exported 1 to 4\n",
        5494,
        "030413f3e3e27771b197a24e02fdaee0c11331db6ac5f10afd7007a8f05633f7",
    ),
];

fn exports(alloc: Global, store: &[u8], rows: &[Row]) -> Option<bool> {
    for (range, line, size, digest) in rows {
        let ran = export(alloc, store, *range)?;
        let segment = ran.file("s");
        let text = hex::encode(alloc, &hash(segment).0).ok()?;
        if !ran.ended(line, 0) || segment.len() != *size || text.as_str() != *digest {
            return Some(false);
        }
    }
    Some(true)
}

fn segments(alloc: Global) -> Option<bool> {
    let store = printed(alloc)?;
    Some(
        exports(alloc, &store, &PRINTED)?
            && exports(alloc, &other_key(alloc, &store)?, &PRINTED)?
            && exports(alloc, &counted(alloc)?, &COUNTED)?,
    )
}

#[test]
fn entries_are_exported(rt: HostRuntime) {
    assert_eq!(rt; segments(rt.alloc()), Some(true));
}

/// Ranges that begin at no snapshot, end behind the last entry, or are none.
const RANGES: [(u64, u64); 6] = [(2, 3), (1, 4), (3, 1), (0, 1), (4, 4), (u64::MAX, u64::MAX)];

fn other_ranges(alloc: Global) -> Option<bool> {
    let store = printed(alloc)?;
    for range in RANGES {
        if !refuses(alloc, &store, range, "refused range\n")? {
            return Some(false);
        }
    }
    let store = counted(alloc)?;
    Some(
        refuses(alloc, &store, (2, 4), "refused range\n")?
            && refuses(alloc, &store, (4, 5), "refused range\n")?,
    )
}

#[test]
fn other_ranges_are_refused(rt: HostRuntime) {
    assert_eq!(rt; other_ranges(rt.alloc()), Some(true));
}

/// Whether an export of a changed store is refused with its line. Entries behind the first one aren't judged where they don't stand up to it.
fn changed_exports(alloc: Global) -> Option<bool> {
    let store = printed(alloc)?;
    for (at, value, line) in CHANGES {
        let bytes = changed(alloc, &store, at, value)?;
        let refused = if line == "refused journal 2\n" {
            export(alloc, &bytes, (1, 3))?.ended("exported 1 to 3\n", 0)
        } else {
            refuses(alloc, &bytes, (1, 3), line)?
        };
        if !refused {
            return Some(false);
        }
    }
    // the count of the byte that is put out before the snapshot, whose keep has another register then
    let early = changed(alloc, &counted(alloc)?, 5485, 3)?;
    let early = changed(alloc, &early, 5612, 0x11)?;
    // the gate behind OUT closed: two entries are left
    let short = changed(alloc, &store, 5489, 0)?;
    Some(
        refuses(alloc, b"", (1, 1), "refused nostore\n")?
            && refuses(alloc, &early, (4, 4), "refused journal 2\n")?
            && refuses(alloc, &short, (1, 3), "refused range\n")?,
    )
}

#[test]
fn stores_that_are_changed(rt: HostRuntime) {
    assert_eq!(rt; changed_exports(rt.alloc()), Some(true));
}

/// How many exports with a failing call came before one without; each ended with this line.
fn failing_calls(alloc: Global, of_disk: bool, line: &str) -> Option<u64> {
    let store = printed(alloc)?;
    for number in 1..1000u64 {
        let (disk_fail, files) = if of_disk { (number, 0) } else { (0, number) };
        let mut disk = disk_of(alloc, &store, disk_fail)?;
        let ran = export_on(alloc, (1, 3), &mut disk, Fails { files, print: 0 })?;
        if ran.ended("exported 1 to 3\n", 0) {
            return Some(number - 1);
        }
        if !ran.ended(line, 4) {
            return None;
        }
    }
    None
}

#[test]
fn each_call_of_an_export_fails_in_turn(rt: HostRuntime) {
    let alloc = rt.alloc();
    let disk = failing_calls(alloc, true, "fault disk\n");
    assert!(rt; disk.is_some_and(|calls| calls > 9));
    let files = failing_calls(alloc, false, "fault files\n");
    assert!(rt; files.is_some_and(|calls| calls > 1));
}

/// A print that fails, and a disk that isn't there.
fn unsaid(alloc: Global) -> Option<bool> {
    let mut disk = disk_of(alloc, &printed(alloc)?, 0)?;
    let silent = export_on(alloc, (1, 3), &mut disk, Fails { print: 1, ..NONE })?;
    let absent = export_on(alloc, (1, 1), &mut NoDisk::new(), NONE)?;
    Some(silent.ended("", 4) && absent.ended("fault disk\n", 4) && absent.file("s") == OLD)
}

#[test]
fn an_export_that_is_not_told(rt: HostRuntime) {
    assert_eq!(rt; unsaid(rt.alloc()), Some(true));
}
