//! Rolls: keys bound, found again, and as many as there are leaves.

use crate::tests::untold::Untold;
use lms_hss::{Roll, RollFault};
use std::alloc::{AllocError, Global};

/// A roll's header: AVMR, the version, L, the types of height 5 and w 8, I and T[1].
const HEADER: [u8; 65] = [
    65, 86, 77, 82, 1, 0, 0, 0, 2, 0, 0, 0, 5, 0, 0, 0, 4, 7, 7, 7, 7, 7, 7, 7, 7, 7, 7, 7, 7, 7,
    7, 7, 7, 9, 9, 9, 9, 9, 9, 9, 9, 9, 9, 9, 9, 9, 9, 9, 9, 9, 9, 9, 9, 9, 9, 9, 9, 9, 9, 9, 9, 9,
    9, 9, 9,
];

/// Parts one after another.
pub fn joined(alloc: Global, parts: &[&[u8]]) -> Result<Vec<u8>, AllocError> {
    let mut bytes = Vec::new(alloc);
    for part in parts {
        bytes.extend_from_slice(part)?;
    }
    Ok(bytes)
}

/// The front of bytes, of this size where there are so many.
pub fn front(bytes: &[u8], size: usize) -> &[u8] {
    &bytes[..size.min(bytes.len())]
}

/// The bytes of a roll with these keys, each 56 times one byte, and bytes behind them.
pub fn roll(alloc: Global, keys: &[u8], behind: &[u8]) -> Result<Vec<u8>, AllocError> {
    let mut bytes = Vec::from_slice(alloc, &HEADER)?;
    for key in keys {
        bytes.push(1)?;
        bytes.extend_from_slice(&[*key; 56])?;
    }
    bytes.extend_from_slice(behind)?;
    Ok(bytes)
}

/// The leaf that a key of one byte is given.
pub fn leaf(roll: &mut Roll, disk: &mut Untold, key: u8) -> Result<u32, RollFault> {
    match roll.enroll(disk, &[key; 56]) {
        Ok(granted) => Ok(granted.leaf()),
        Err(fault) => Err(fault),
    }
}

/// The leaf of a key in the roll of these bytes; None where it doesn't open or the key isn't granted.
pub fn leaf_in(alloc: Global, bytes: &[u8], key: u8) -> Result<Option<u32>, AllocError> {
    let mut disk = Untold::new(alloc, bytes, &[])?;
    let Ok(mut roll) = Roll::attach(&mut disk) else {
        return Ok(None);
    };
    Ok(leaf(&mut roll, &mut disk, key).ok())
}

#[test]
fn a_key_is_bound_once(rt: HostRuntime) -> Result<(), AllocError> {
    let alloc = rt.alloc();
    let mut disk = Untold::new(alloc, &roll(alloc, &[], &[0])?, &[])?;
    let Ok(mut open) = Roll::attach(&mut disk) else {
        panic!(rt; "no roll")
    };
    assert_eq!(rt; leaf(&mut open, &mut disk, 3), Ok(0));
    assert_eq!(rt; leaf(&mut open, &mut disk, 4), Ok(1));
    assert_eq!(rt; leaf(&mut open, &mut disk, 3), Ok(0));
    let Ok(mut again) = Roll::attach(&mut disk) else {
        panic!(rt; "no roll")
    };
    assert_eq!(rt; leaf(&mut again, &mut disk, 4), Ok(1));
    assert_eq!(rt; leaf(&mut again, &mut disk, 5), Ok(2));
    Ok(())
}

#[test]
fn as_many_keys_as_leaves(rt: HostRuntime) -> Result<(), AllocError> {
    let alloc = rt.alloc();
    let mut disk = Untold::new(alloc, &roll(alloc, &[], &[0])?, &[])?;
    let Ok(mut open) = Roll::attach(&mut disk) else {
        panic!(rt; "no roll")
    };
    for key in 0..32 {
        assert_eq!(rt; leaf(&mut open, &mut disk, key), Ok(key as u32));
    }
    assert_eq!(rt; leaf(&mut open, &mut disk, 32), Err(RollFault::LeavesSpent));
    assert_eq!(rt; leaf(&mut open, &mut disk, 31), Ok(31));
    let Ok(mut again) = Roll::attach(&mut disk) else {
        panic!(rt; "no roll")
    };
    assert_eq!(rt;
        leaf(&mut again, &mut disk, 32),
        Err(RollFault::LeavesSpent)
    );
    assert_eq!(rt; leaf(&mut again, &mut disk, 0), Ok(0));
    Ok(())
}

#[test]
fn ends_and_headers(rt: HostRuntime) -> Result<(), AllocError> {
    let alloc = rt.alloc();
    // a key that stands twice has its first leaf
    assert_eq!(rt; leaf_in(alloc, &roll(alloc, &[3, 3], &[0])?, 3)?, Some(0));
    assert_eq!(rt; leaf_in(alloc, &roll(alloc, &[3, 3], &[0])?, 4)?, Some(2));
    // the roll ends without a byte, at a closed gate, and at an open one with too few bytes behind it
    assert_eq!(rt; leaf_in(alloc, &roll(alloc, &[3], &[])?, 4)?, Some(1));
    assert_eq!(rt;
        leaf_in(alloc, &roll(alloc, &[3], &[2, 4, 4])?, 4)?,
        Some(1)
    );
    assert_eq!(rt; leaf_in(alloc, &roll(alloc, &[3], &[1])?, 4)?, Some(1));
    assert_eq!(rt;
        leaf_in(
            alloc,
            &roll(alloc, &[3], &joined(alloc, &[&[1], &[4; 55]])?)?,
            4
        )?,
        Some(1)
    );
    assert_eq!(rt;
        leaf_in(
            alloc,
            &roll(alloc, &[3], &joined(alloc, &[&[1], &[4; 56]])?)?,
            5
        )?,
        Some(2)
    );
    // what stands behind a closed gate isn't bound
    assert_eq!(rt;
        leaf_in(
            alloc,
            &roll(alloc, &[3], &joined(alloc, &[&[0], &[4; 56]])?)?,
            5
        )?,
        Some(1)
    );
    // headers that are none
    assert_eq!(rt; leaf_in(alloc, &[], 3)?, None);
    assert_eq!(rt; leaf_in(alloc, &HEADER[..64], 3)?, None);
    assert_eq!(rt; leaf_in(alloc, &HEADER, 3)?, Some(0));
    for (at, value) in [
        (0, 66),
        (4, 2),
        (8, 1),
        (8, 3),
        (12, 4),
        (12, 10),
        (16, 0),
        (16, 5),
    ] {
        let mut bytes = HEADER;
        assert!(rt; at < 65);
        bytes[at] = value;
        assert_eq!(rt; leaf_in(alloc, &bytes, 3)?, None, "{value} at {at}");
    }
    Ok(())
}
