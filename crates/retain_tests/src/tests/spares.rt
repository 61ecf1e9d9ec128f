//! A spare of each kind. What becomes of it is what an independent program makes of it.

use super::refusals::refuses;
use super::running::{bytes_of, disk_of, retain_on};
use super::stores::{changed, counted, joined, moved};
use std::alloc::Global;

/// Whether a retain leaves the retired store and its base, and behind that only 00.
fn leaves_base(
    alloc: Global,
    store: &[u8],
    spare: &[u8],
    whole: &(Vec<u8>, Vec<u8>),
) -> Option<bool> {
    let (retired, base) = whole;
    let mut disk = disk_of(alloc, store, 0)?;
    let mut other = disk_of(alloc, spare, 0)?;
    let ran = retain_on(alloc, &mut disk, 4, &mut other)?;
    let left = bytes_of(alloc, &mut other)?;
    Some(
        ran.ended("retained 4\n", 0)
            && bytes_of(alloc, &mut disk)?.as_slice() == retired.as_slice()
            && left.len() == spare.len().max(base.len())
            && left.get(..base.len())? == base.as_slice()
            && left.get(base.len()..)?.iter().all(|byte| *byte == 0),
    )
}

/// Whether a retain of a retired store leaves both disks as they were.
fn leaves_both(alloc: Global, store: &[u8], spare: &[u8]) -> Option<bool> {
    let mut disk = disk_of(alloc, store, 0)?;
    let mut other = disk_of(alloc, spare, 0)?;
    let ran = retain_on(alloc, &mut disk, 4, &mut other)?;
    Some(
        ran.ended("retained 4\n", 0)
            && bytes_of(alloc, &mut disk)?.as_slice() == store
            && bytes_of(alloc, &mut other)?.as_slice() == spare,
    )
}

/// A spare without a journal's first byte, or with one byte at most, is written. Another isn't.
fn spares_before(alloc: Global) -> Option<bool> {
    let store = counted(alloc)?;
    let whole = moved(alloc)?;
    let base = whole.1.as_slice();
    let prepared = changed(alloc, base, 0, 0)?;
    let longer = joined(alloc, &prepared, &[0; 500])?;
    let shorter = prepared.get(..5467)?;
    let behind = joined(alloc, &prepared, &[0, 1])?;
    for free in [
        b"".as_slice(),
        &[0],
        b"A",
        b"xxxx",
        &[b'x'; 6000],
        &[0; 9000],
        &prepared,
        &longer,
        shorter,
        &behind,
    ] {
        if !leaves_base(alloc, &store, free, &whole)? {
            return Some(false);
        }
    }
    for taken in [b"AVMJ".as_slice(), b"AV", base, base.get(..5467)?, &store] {
        if !refuses(alloc, &store, taken, 4, "refused notempty\n")? {
            return Some(false);
        }
    }
    Some(true)
}

/// Behind the mark a base that is whole but for its first byte is activated, and one that is active is left; another is refused.
fn spares_behind(alloc: Global) -> Option<bool> {
    let whole = moved(alloc)?;
    let (retired, base) = (whole.0.as_slice(), whole.1.as_slice());
    let prepared = changed(alloc, base, 0, 0)?;
    let bent = changed(alloc, &prepared, 200, 0xee)?;
    let behind = joined(alloc, &prepared, &[0, 1])?;
    let active = joined(alloc, base, &[1])?;
    for other in [
        b"".as_slice(),
        &[0],
        b"A",
        b"AV",
        b"AVMJ",
        &[b'x'; 6000],
        &[0; 9000],
        retired,
        prepared.get(..5467)?,
        &bent,
        &behind,
    ] {
        if !refuses(alloc, retired, other, 4, "refused spare\n")? {
            return Some(false);
        }
    }
    Some(
        leaves_base(alloc, retired, &prepared, &whole)?
            && leaves_base(
                alloc,
                retired,
                &joined(alloc, &prepared, &[0; 500])?,
                &whole,
            )?
            && leaves_both(alloc, retired, base)?
            && leaves_both(alloc, retired, base.get(..5467)?)?
            && leaves_both(alloc, retired, &active)?,
    )
}

#[test]
fn a_spare_of_each_kind(rt: HostRuntime) {
    assert_eq!(rt; spares_before(rt.alloc()), Some(true));
    assert_eq!(rt; spares_behind(rt.alloc()), Some(true));
}
