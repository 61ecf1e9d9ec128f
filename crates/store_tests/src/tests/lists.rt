//! The lines of journals, as an independent program gives them; and what a listing that fails leaves.

use crate::tests::running::{ends_as, lists_as};
use crate::tests::stores::{fresh, front, with_record};
use std::alloc::{AllocError, Global};

const BOOT: &str = "1 BOOT 0 a0d314be794611a17de42cf222f7a4f0900ced411212e09e77eef95ca8602114\n";

/// A record with an entry of each kind but BOOT, a keep and a seal: CONIN, CLOCK, OUT, SEND without and with a payload, RECV,
/// ACKED, HALT, SNAP (docs/FORMATS.md, "Journal").
const PARTS: [&str; 11] = [
    "010000000000000002030000000a000000000000000a0aff",
    "0100000000000000030400000010000000000000000b0000000000000000",
    "010000000000000004070000000a000000000000000c480a",
    "0100000000000000050800000014000000000000000d000000010000000000000001",
    "0100000000000000060800000018000000000000000e00000001000000000000000270696e67",
    "0100000000000000070500000053000000000000000f010000000100000000000000090000000000000000000000000000000000000000000000000000000000000000000000160000000000000005000000000000000000000001686900000000",
    "010000000000000008060000009200000000000000100200000001000000000000000c000000000000000000000000000000000000000000000000000000000000000000000055000000000000000301000000000000000000000006000000000000000000000000000000000000000000000000000000000000000000000018000000000000000e00000001000000000000000270696e670000000000000000",
    "010000000000000009090000001000000000000000110000000100000000",
    "01000000000000000a02000000280000000000000400000102030405060708090a0b0c0d0e0f101112131415161718191a1b1c1d1e1f",
    "03000000000000000a0000000307070700000000",
    "02",
];

const LINES: &str =
    "2 CONIN 10 0aff\n3 CLOCK 11 0\n4 OUT 12 480a\n5 SEND 13 1 1\n6 SEND 14 1 2 70696e67\n7 RECV 15 1 1\n8 ACKED 16 1 2\n9 HALT 17 1 0\n10 SNAP 1024 000102030405060708090a0b0c0d0e0f101112131415161718191a1b1c1d1e1f\nseal 10\n";

/// The mark of entry 10.
const MARK: [&str; 1] = ["04000000000000000a"];

/// The new store, that with a record more, and that with the mark behind it.
fn stores(alloc: Global) -> Option<(Vec<u8>, Vec<u8>, Vec<u8>)> {
    let first = fresh(alloc)?;
    let second = with_record(alloc, &first, &PARTS)?;
    let third = with_record(alloc, &second, &MARK)?;
    Some((first, second, third))
}

#[test]
fn each_item_has_its_line(rt: HostRuntime) -> Result<(), AllocError> {
    let alloc = rt.alloc();
    let Some((first, second, third)) = stores(alloc) else {
        assert!(rt; false);
        return Ok(());
    };
    let lines = format!(in alloc; "{BOOT}{LINES}")?;
    let retired = format!(in alloc; "{BOOT}{LINES}retired 10\n")?;
    assert!(rt; lists_as(alloc, &first, BOOT, 0));
    assert!(rt; lists_as(alloc, &second, &lines, 0));
    assert!(rt; lists_as(alloc, &third, &retired, 0));
    Ok(())
}

#[test]
fn other_disks_are_refused(rt: HostRuntime) -> Result<(), AllocError> {
    let alloc = rt.alloc();
    let Some((first, second, _)) = stores(alloc) else {
        assert!(rt; false);
        return Ok(());
    };
    // the record's gate stands at the place of the last one before it
    let damaged = "refused damaged 5460\n";
    assert!(rt; lists_as(alloc, b"", "refused nostore\n", 2));
    assert!(rt; lists_as(alloc, front(&first, 5401), "refused nostore\n", 2));
    assert!(rt; lists_as(alloc, front(&second, 5900), damaged, 2));
    Ok(())
}

#[test]
fn calls_fail_in_turn(rt: HostRuntime) -> Result<(), AllocError> {
    let alloc = rt.alloc();
    let Some((first, second, _)) = stores(alloc) else {
        assert!(rt; false);
        return Ok(());
    };
    let two = format!(in alloc; "{BOOT}2 CONIN 10 0aff\n")?;
    // the sync, and the length
    assert!(rt; ends_as(alloc, &first, (1, 0), "fault disk\n", 4) == Some(true));
    assert!(rt; ends_as(alloc, &first, (2, 0), "fault disk\n", 4) == Some(true));
    // nothing is printed behind a print that failed
    assert!(rt; ends_as(alloc, &second, (0, 1), "", 4) == Some(true));
    assert!(rt; ends_as(alloc, &second, (0, 2), BOOT, 4) == Some(true));
    assert!(rt; ends_as(alloc, &second, (0, 3), &two, 4) == Some(true));
    Ok(())
}
