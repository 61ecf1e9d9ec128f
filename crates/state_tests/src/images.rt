//! A segment of a machine that boots from an image of six instructions, as the formats spell it.

use boot_image::begins_as;
use std::alloc::{AllocError, Global};

/// A place, and the bytes that stand there in a segment that is zero elsewhere.
const USUAL: [(usize, &[u8]); 9] = [
    // magic, version, number and the head's length
    (0, &[0x41, 0x56, 0x4d, 0x53, 1]),
    (12, &[1]),
    (47, &[4, 168]),
    // the head's version, number of steps between snapshots, page count and pc
    (49, &[1, 0, 0, 0, 4, 0, 0, 0, 0, 1]),
    (184, &[0x80]),
    // the page
    (
        1241,
        &[0xb7, 2, 0, 0x10, 0x13, 3, 0x80, 4, 0x23, 0xa0, 0x62, 0],
    ),
    (
        1253,
        &[0x13, 3, 0xa0, 0, 0x23, 0xa0, 0x62, 0, 0x73, 0, 0, 0],
    ),
    // BOOT: number, kind and length; its root isn't compared
    (5344, &[1, 1, 0, 0, 0, 40]),
    (5389, &[0]),
];

/// The same of a machine of version 2: its head has nine bytes more.
const SECOND: [(usize, &[u8]); 9] = [
    (0, &[0x41, 0x56, 0x4d, 0x53, 1]),
    (12, &[1]),
    (47, &[4, 177]),
    (49, &[2, 0, 0, 0, 4, 0, 0, 0, 0, 1]),
    (184, &[0x80]),
    (
        1250,
        &[0xb7, 2, 0, 0x10, 0x13, 3, 0x80, 4, 0x23, 0xa0, 0x62, 0],
    ),
    (
        1262,
        &[0x13, 3, 0xa0, 0, 0x23, 0xa0, 0x62, 0, 0x73, 0, 0, 0],
    ),
    (5353, &[1, 1, 0, 0, 0, 40]),
    (5398, &[0]),
];

const IMAGE: [u8; 24] = [
    0xb7, 2, 0, 0x10, 0x13, 3, 0x80, 4, 0x23, 0xa0, 0x62, 0, 0x13, 3, 0xa0, 0, 0x23, 0xa0, 0x62, 0,
    0x73, 0, 0, 0,
];

fn put(bytes: &mut [u8], at: usize, new: &[u8]) {
    if at <= bytes.len() && new.len() <= bytes.len() - at {
        bytes[at..at + new.len()].copy_from_slice(new);
    }
}

fn segment(
    alloc: Global,
    usual: &[(usize, &[u8])],
    len: usize,
    changes: &[(usize, &[u8])],
) -> Result<Vec<u8>, AllocError> {
    let mut bytes = vec![in alloc; 0u8; len]?;
    for (at, new) in usual {
        put(bytes.as_mut_slice(), *at, new);
    }
    for (at, new) in changes {
        put(bytes.as_mut_slice(), *at, new);
    }
    Ok(bytes)
}

fn begins(
    alloc: Global,
    usual: &[(usize, &[u8])],
    changes: &[(usize, &[u8])],
    len: usize,
    image: &[u8],
) -> Option<bool> {
    let Ok(bytes) = segment(alloc, usual, len, changes) else {
        return None;
    };
    match begins_as(alloc, &bytes, image) {
        Ok(begins) => Some(begins),
        Err(_) => None,
    }
}

fn first(alloc: Global, changes: &[(usize, &[u8])], len: usize, image: &[u8]) -> Option<bool> {
    begins(alloc, &USUAL, changes, len, image)
}

fn second(alloc: Global, changes: &[(usize, &[u8])]) -> Option<bool> {
    begins(alloc, &SECOND, changes, 5399, &IMAGE)
}

#[test]
fn how_a_segment_begins(rt: HostRuntime) {
    let alloc = rt.alloc();
    assert_eq!(rt; first(alloc, &[], 5390, &IMAGE), Some(true));
    assert_eq!(rt; first(alloc, &[], 5390, &[0x6f, 0, 0, 0]), Some(false));
    assert_eq!(rt; first(alloc, &[], 5390, &[]), Some(false));
    assert_eq!(rt; first(alloc, &[], 5389, &IMAGE), Some(false));
    // A register, a byte of the page, and SNAP as the first entry.
    assert_eq!(rt; first(alloc, &[(63, &[1])], 5390, &IMAGE), Some(false));
    assert_eq!(rt; first(alloc, &[(5336, &[1])], 5390, &IMAGE), Some(false));
    assert_eq!(rt;
        first(alloc, &[(12, &[2]), (5344, &[2, 2])], 5390, &IMAGE),
        Some(false)
    );
}

#[test]
fn how_one_of_version_2_begins(rt: HostRuntime) {
    let alloc = rt.alloc();
    assert_eq!(rt; second(alloc, &[]), Some(true));
    // The vector, the saved pc and the state of the bell, and the version.
    assert_eq!(rt; second(alloc, &[(1244, &[4])]), Some(false));
    assert_eq!(rt; second(alloc, &[(1248, &[4])]), Some(false));
    assert_eq!(rt; second(alloc, &[(1249, &[1])]), Some(false));
    assert_eq!(rt; second(alloc, &[(49, &[1])]), Some(false));
}
