//! A crash at each of the calls of an enroll.

use crate::tests::rolls::{leaf, roll};
use crate::tests::untold::Untold;
use lms_hss::Roll;
use std::alloc::{AllocError, Global};

/// How many of the last calls are made, the byte in each free place, and the leaf that another key is given then: 1 where the key in
/// flight isn't bound, 2 where it is.
const CUTS: [(usize, u8, u32); 15] = [
    (0, 0x00, 1),
    (0, 0x01, 1),
    (0, 0xff, 1),
    (1, 0x00, 1),
    (1, 0x01, 1),
    (1, 0xff, 1),
    (2, 0x00, 1),
    (2, 0x01, 1),
    (2, 0xff, 1),
    (3, 0x00, 1),
    (3, 0x01, 2),
    (3, 0xff, 1),
    (4, 0x00, 2),
    (4, 0x01, 2),
    (4, 0xff, 2),
];

/// What stands behind the first key: a closed gate, nothing, an open gate, and one with 55 bytes behind it.
const ENDS: [&[u8]; 4] = [&[0], &[], &[1], &[1; 56]];

/// The leaves of the first key, of another key, and of the key in flight, in the roll that is opened.
fn leaves(alloc: Global, mut disk: Untold) -> Result<Option<(u32, u32, u32)>, AllocError> {
    let _alloc = alloc;
    let Ok(mut open) = Roll::attach(&mut disk) else {
        return Ok(None);
    };
    let first = leaf(&mut open, &mut disk, 3);
    let other = leaf(&mut open, &mut disk, 5);
    let flight = leaf(&mut open, &mut disk, 4);
    match (first, other, flight) {
        (Ok(first), Ok(other), Ok(flight)) => Ok(Some((first, other, flight))),
        _ => Ok(None),
    }
}

#[test]
fn a_crash_leaves_the_key_or_not(rt: HostRuntime) -> Result<(), AllocError> {
    let alloc = rt.alloc();
    for end in ENDS {
        let mut disk = Untold::new(alloc, &roll(alloc, &[3], end)?, &[])?;
        let Ok(mut open) = Roll::attach(&mut disk) else {
            panic!(rt; "no roll")
        };
        assert_eq!(rt; leaf(&mut open, &mut disk, 4), Ok(1));
        let made = disk.disk.calls();
        for (calls, fill, other) in CUTS {
            for long in [false, true] {
                let cut = disk.crashed(
                    alloc,
                    made.saturating_sub(4).saturating_add(calls),
                    long,
                    fill,
                )?;
                let flight = if other == 1 { 2 } else { 1 };
                assert_eq!(rt;
                    leaves(alloc, cut)?,
                    Some((0, other, flight)),
                    "{calls} {fill}"
                );
            }
        }
    }
    Ok(())
}

#[test]
fn a_crash_at_an_open_end(rt: HostRuntime) -> Result<(), AllocError> {
    let alloc = rt.alloc();
    let mut disk = Untold::new(alloc, &roll(alloc, &[3], &[1; 56])?, &[])?;
    let Ok(mut open) = Roll::attach(&mut disk) else {
        panic!(rt; "no roll")
    };
    assert_eq!(rt; leaf(&mut open, &mut disk, 4), Ok(1));
    let made = disk.disk.calls();
    // the gate that is closed first, and its sync
    for calls in 4..6 {
        for fill in [0x00, 0x01, 0xff] {
            for long in [false, true] {
                let cut = disk.crashed(alloc, made.saturating_sub(calls), long, fill)?;
                assert_eq!(rt; leaves(alloc, cut)?, Some((0, 1, 2)), "{calls} {fill}");
            }
        }
    }
    Ok(())
}

#[test]
fn each_call_fails_once(rt: HostRuntime) -> Result<(), AllocError> {
    let alloc = rt.alloc();
    // the calls behind those that write the roll: an attach makes four, an enroll six
    for call in 3..13 {
        let mut disk = Untold::new(alloc, &roll(alloc, &[3], &[0])?, &[call])?;
        let opened = Roll::attach(&mut disk);
        if call < 7 {
            assert!(rt; opened.is_err());
        } else {
            let Ok(mut open) = opened else {
                panic!(rt; "no roll")
            };
            assert!(rt; leaf(&mut open, &mut disk, 4).is_err());
            assert!(rt; leaf(&mut open, &mut disk, 4).is_err());
            let Ok(mut again) = Roll::attach(&mut disk) else {
                panic!(rt; "no roll")
            };
            assert_eq!(rt; leaf(&mut again, &mut disk, 4), Ok(1));
        }
    }
    Ok(())
}
