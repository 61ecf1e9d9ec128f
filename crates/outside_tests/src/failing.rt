//! Each call of an object in memory fails in turn, and no other of its calls.

use avm_num::NoMemory;
use avm_outside::*;
use std::alloc::{AllocError, Global};

// The number of the call that fails, and which of three calls come through.
const TURNS: [(u64, [bool; 3]); 4] = [
    (1, [false, true, true]),
    (2, [true, false, true]),
    (3, [true, true, false]),
    (4, [true, true, true]),
];

fn of_files(alloc: Global, number: u64) -> Result<[bool; 3], AllocError> {
    let Ok(mut files) = MemFiles::new(alloc, Vec::from_slice(alloc, &[number])?) else {
        return Err(AllocError);
    };
    let mut buf = [0u8; 4];
    Ok([
        files.append("a", b"one").is_ok(),
        files.create("b").is_ok(),
        files.read_at("b", 0, &mut buf).is_ok(),
    ])
}

fn of_sink(alloc: Global, number: u64) -> Result<[bool; 3], AllocError> {
    let Ok(mut sink) = MemSink::new(alloc, Vec::from_slice(alloc, &[number])?) else {
        return Err(AllocError);
    };
    Ok([
        sink.write(b"one").is_ok(),
        sink.write(b"two").is_ok(),
        sink.write(b"three").is_ok(),
    ])
}

fn of_feed(alloc: Global, number: u64) -> Result<[bool; 3], AllocError> {
    let Ok(mut feed) = ListFeed::new(alloc, Vec::from_slice(alloc, &[number])?) else {
        return Err(AllocError);
    };
    let mut buf = [0u8; 24576];
    Ok([
        feed.next(0, true, &mut buf).is_ok(),
        feed.clock().is_ok(),
        feed.next(0, false, &mut buf).is_ok(),
    ])
}

fn of_outlet(alloc: Global, number: u64) -> Result<[bool; 3], AllocError> {
    let Ok(mut outlet) = MemOutlet::new(alloc, Vec::from_slice(alloc, &[number])?) else {
        return Err(AllocError);
    };
    let came = [
        outlet.packet(1, b"one").is_ok(),
        outlet.console(b"two").is_ok(),
        outlet.authenticator(b"three").is_ok(),
    ];
    let kept = [
        outlet.packet_at(0) == Some((1, b"one".as_slice())),
        outlet.console_at(0) == Some(b"two".as_slice()),
        outlet.auth_at(0) == Some(b"three".as_slice()),
    ];
    if came != kept {
        return Ok([false; 3]);
    }
    Ok(came)
}

#[test]
fn each_call_fails_in_turn(rt: HostRuntime) -> Result<(), AllocError> {
    let alloc = rt.alloc();
    for (number, want) in TURNS {
        assert_eq!(rt; of_files(alloc, number)?, want, "files, {number}");
        assert_eq!(rt; of_sink(alloc, number)?, want, "sink, {number}");
        assert_eq!(rt; of_feed(alloc, number)?, want, "feed, {number}");
        assert_eq!(rt; of_outlet(alloc, number)?, want, "outlet, {number}");
    }
    Ok(())
}
