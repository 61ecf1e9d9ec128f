//! Stores that aren't retained. The lines are those of an independent program.

use super::running::{bytes_of, disk_of, retain_on};
use super::stores::{changed, counted, joined, moved};
use avm_outside::NoDisk;
use std::alloc::Global;

/// Whether a retain is refused with this line, and changes no byte of either disk.
pub fn refuses(alloc: Global, store: &[u8], spare: &[u8], at: u64, line: &str) -> Option<bool> {
    let mut disk = disk_of(alloc, store, 0)?;
    let mut other = disk_of(alloc, spare, 0)?;
    let ran = retain_on(alloc, &mut disk, at, &mut other)?;
    Some(
        ran.ended(line, 2)
            && bytes_of(alloc, &mut disk)?.as_slice() == store
            && bytes_of(alloc, &mut other)?.as_slice() == spare,
    )
}

/// A place of the store, the byte there, the number asked for, and the line: a record without items behind each gate, the first gate
/// closed, no magic, a head of another version, the key's type, the last byte of BOOT's root, OUT and HALT one step early, and SNAP's
/// root. A stretch begins at the keep where there is one.
const CHANGES: [(usize, u8, u64, &str); 14] = [
    (5405, 0, 4, "refused damaged 5401\n"),
    (5464, 0, 3, "refused damaged 5460\n"),
    (6785, 0, 9, "refused damaged 6781\n"),
    (5401, 0, 4, "refused nostore\n"),
    (0, 0, 3, "refused nostore\n"),
    (113, 3, 4, "refused nostore\n"),
    (8, 4, 9, "refused nostore\n"),
    (5459, 0, 3, "refused journal 1\n"),
    (5459, 0, 1, "refused journal 1\n"),
    (5459, 0, 0, "refused range\n"),
    (5485, 3, 3, "refused journal 2\n"),
    (5485, 3, 1, "refused range\n"),
    (5508, 3, 3, "refused journal 3\n"),
    (5540, 0, 4, "refused journal 4\n"),
];

fn changed_stores(alloc: Global) -> Option<bool> {
    let store = counted(alloc)?;
    for (place, value, at, line) in CHANGES {
        // the store is judged before the spare
        if !refuses(
            alloc,
            &changed(alloc, &store, place, value)?,
            b"AVMJ",
            at,
            line,
        )? {
            return Some(false);
        }
    }
    refuses(alloc, b"", b"", 4, "refused nostore\n")
}

/// Numbers that no SNAP entry has.
const NUMBERS: [u64; 6] = [0, 1, 2, 3, 5, u64::MAX];

/// Of a store and of the retired one. The number is judged before the spare.
fn other_numbers(alloc: Global) -> Option<bool> {
    let store = counted(alloc)?;
    let (retired, base) = moved(alloc)?;
    for at in NUMBERS {
        for spare in [b"".as_slice(), b"AVMJ", &base] {
            if !refuses(alloc, &store, spare, at, "refused range\n")?
                || !refuses(alloc, &retired, spare, at, "refused range\n")?
            {
                return Some(false);
            }
        }
    }
    let open = joined(alloc, retired.get(..6801)?, &[1])?;
    refuses(alloc, &open, &base, 4, "refused damaged 6801\n")
}

#[test]
fn stores_that_are_changed_are_refused(rt: HostRuntime) {
    assert_eq!(rt; changed_stores(rt.alloc()), Some(true));
    assert_eq!(rt; other_numbers(rt.alloc()), Some(true));
}

/// A disk that isn't there.
fn missing_disks(alloc: Global) -> Option<bool> {
    let mut disk = disk_of(alloc, &counted(alloc)?, 0)?;
    let no_store = retain_on(alloc, &mut NoDisk::new(), 4, &mut NoDisk::new())?;
    let no_spare = retain_on(alloc, &mut disk, 4, &mut NoDisk::new())?;
    Some(no_store.ended("fault disk\n", 4) && no_spare.ended("fault spare\n", 4))
}

#[test]
fn disks_that_are_not_there(rt: HostRuntime) {
    assert_eq!(rt; missing_disks(rt.alloc()), Some(true));
}
