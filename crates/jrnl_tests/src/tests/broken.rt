//! Bytes that are no journal, with each part of the grammar broken.

use crate::tests::texts::{BOOT, KEEP, LINE, ROOT, SEAL, SEND, SNAP, base, header, joined, store};
use crate::tests::untold::Untold;
use jrnl_store::{Journal, StoreFault};
use std::alloc::{AllocError, Global};

/// The place of the first gate of `store`, and of the gate behind BOOT.
const FIRST: u64 = 4220;

const SECOND: u64 = 4279;

/// A place of `store`, and another byte there: a magic, a version, a type of key, a first number, a hash before it, a leaf, a
/// head's length, a page count, or a closed gate, and no store is left.
const NO_STORES: [(usize, u8); 12] = [
    (0, 0x40),
    (4, 0),
    (4, 2),
    (4, 3),
    (8, 4),
    (8, 8),
    (68, 2),
    (100, 1),
    (108, 1),
    (110, 0x41),
    (122, 3),
    (4220, 0),
];

/// The same behind the first gate: the record's length, a part's kind, a number, an entry's kind, a content's length, a count.
const DAMAGES: [(usize, u8); 9] = [
    (4224, 0),
    (4224, 53),
    (4224, 55),
    (4221, 2),
    (4225, 5),
    (4233, 2),
    (4234, 2),
    (4238, 41),
    (4246, 1),
];

fn attached(alloc: Global, bytes: &[u8]) -> Result<Option<StoreFault>, AllocError> {
    let mut disk = Untold::new(alloc, bytes, &[])?;
    match Journal::attach(alloc, &mut disk) {
        Ok(_) => Ok(None),
        Err(fault) => Ok(Some(fault)),
    }
}

#[test]
fn a_changed_byte_is_found(rt: HostRuntime) -> Result<(), AllocError> {
    let alloc = rt.alloc();
    let whole = store(alloc, &[0])?;
    assert_eq!(rt; attached(alloc, &whole)?, None);
    for (rows, want) in [
        (NO_STORES.as_slice(), StoreFault::NoStore),
        (DAMAGES.as_slice(), StoreFault::Damaged(FIRST)),
    ] {
        for (at, byte) in rows {
            let mut bytes = Vec::from_slice(alloc, &whole)?;
            assert!(rt; *at < bytes.len());
            bytes[*at] = *byte;
            assert_eq!(rt; attached(alloc, &bytes)?, Some(want), "{at} {byte}");
        }
    }
    Ok(())
}

#[test]
fn a_cut_store_is_found(rt: HostRuntime) -> Result<(), AllocError> {
    let alloc = rt.alloc();
    let whole = store(alloc, &[0])?;
    for len in [0, 4, 5, 61, 69, 101, 109, 113, 123, 124, 4219, 4220] {
        assert!(rt; len < whole.len());
        assert_eq!(rt;
            attached(alloc, &whole[..len])?,
            Some(StoreFault::NoStore),
            "{len}"
        );
    }
    for len in [4221, 4224, 4225, 4278, 4279] {
        assert!(rt; len < whole.len());
        let damaged = Some(StoreFault::Damaged(FIRST));
        assert_eq!(rt; attached(alloc, &whole[..len])?, damaged, "{len}");
    }
    Ok(())
}

/// What opening a store answers that has these items behind BOOT.
fn damage(alloc: Global, pieces: &[&[u8]]) -> Result<Option<StoreFault>, AllocError> {
    let items = joined(alloc, pieces)?;
    let len = (items.len() as u64).to_be_bytes();
    let bytes = joined(alloc, &[&[1], &len[4..], &items, &[0]])?;
    attached(alloc, &store(alloc, &bytes)?)
}

#[test]
fn records_that_dont_continue_are_found(rt: HostRuntime) -> Result<(), AllocError> {
    let alloc = rt.alloc();
    let rows: [&[&[u8]]; 9] = [
        &[&SEND],
        &[&LINE, &LINE],
        &[&BOOT, &ROOT],
        &[&LINE, &KEEP],
        &[&LINE, &SEND, &SNAP, &ROOT, &SEAL, &KEEP],
        &[&LINE, &SEND, &SNAP, &ROOT, &KEEP, &KEEP],
        &[&LINE, &SEND, &SNAP, &ROOT, &MARK],
        &[&MARK],
        &[&LINE, &[0]],
    ];
    for (row, pieces) in rows.iter().enumerate() {
        assert_eq!(rt;
            damage(alloc, pieces)?,
            Some(StoreFault::Damaged(SECOND)),
            "{row}"
        );
    }
    assert_eq!(rt;
        damage(alloc, &[&LINE, &SEND, &SNAP, &ROOT, &KEEP, &SEAL])?,
        None
    );
    Ok(())
}

/// A mark that names entry 4.
const MARK: [u8; 9] = [4, 0, 0, 0, 0, 0, 0, 0, 4];

/// A place of `base`, and another byte there.
const NO_BASES: [(usize, u8); 10] = [
    (68, 1),
    (61, 0x20),
    (108, 2),
    (4220, 0),
    (4220, 31),
    (4228, 3),
    (4264, 34),
    (4272, 4),
    (4273, 7),
    (4298, 0),
];

#[test]
fn a_base_asks_for_its_carried_entries(rt: HostRuntime) -> Result<(), AllocError> {
    let alloc = rt.alloc();
    let whole = base(alloc)?;
    assert_eq!(rt; attached(alloc, &whole)?, None);
    for (at, byte) in NO_BASES {
        let mut bytes = Vec::from_slice(alloc, &whole)?;
        assert!(rt; at < bytes.len());
        bytes[at] = byte;
        assert_eq!(rt;
            attached(alloc, &bytes)?,
            Some(StoreFault::NoStore),
            "{at} {byte}"
        );
    }
    assert_eq!(rt; header(alloc)?.len(), 4220);
    Ok(())
}
