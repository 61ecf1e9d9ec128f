//! Stores, as an independent program makes them.

use std::alloc::Global;

/// The bytes of a new store that aren't zero, each piece behind its place: the header with the key, the head of a machine
/// with one page, the guest, and the record with BOOT between its gates.
const FRESH: [(usize, &str); 5] = [
    (
        0,
        "41564d4a010000000500000004000102030405060708090a0b0c0d0e0f84fa12b1dfa8b4afdc76ca3a26a35fb1870396261fd727890f2407e4df7f12890000000000000001",
    ),
    (111, "04a801000000040000000001"),
    (248, "80"),
    (1305, "b70200101303800423a062001303a00023a0620073"),
    (
        5401,
        "010000003601000000000000000101000000280000000000000000a0d314be794611a17de42cf222f7a4f0900ced411212e09e77eef95ca8602114",
    ),
];

const LENGTH: usize = 5461;

fn put(all: &mut [u8], at: usize, bytes: &[u8]) {
    for i in 0..bytes.len() {
        if at < all.len() && i < all.len() - at {
            all[at + i] = bytes[i];
        }
    }
}

/// A new store.
pub fn fresh(alloc: Global) -> Option<Vec<u8>> {
    let mut all = vec![in alloc; 0u8; LENGTH].ok()?;
    for (at, text) in FRESH {
        let bytes = hex::decode(alloc, text).ok()?;
        put(&mut all, at, &bytes);
    }
    Some(all)
}

/// A store with one record more: its last gate is opened, and a length, the parts and a closed gate stand behind.
pub fn with_record(alloc: Global, store: &[u8], parts: &[&str]) -> Option<Vec<u8>> {
    let mut items = Vec::new(alloc);
    for part in parts {
        let bytes = hex::decode(alloc, part).ok()?;
        items.extend_from_slice(&bytes).ok()?;
    }
    let mut all = Vec::new(alloc);
    all.extend_from_slice(store).ok()?;
    let _ = all.pop();
    all.push(1).ok()?;
    let size = u32::try_from(items.len()).ok()?;
    all.extend_from_slice(&size.to_be_bytes()).ok()?;
    all.extend_from_slice(&items).ok()?;
    all.push(0).ok()?;
    Some(all)
}

/// The first bytes of a store, so many.
pub fn front(store: &[u8], size: usize) -> &[u8] {
    if size <= store.len() {
        &store[..size]
    } else {
        store
    }
}
