//! What no clause says: that memory suffices, and each object once with a call that fails.

use avm_num::NoMemory;
use avm_outside::*;
use std::alloc::{AllocError, Global};

// a place to read from, the count that is given, and the buffer after it
const READS: [(u64, usize, &[u8; 4]); 5] = [
    (0, 4, b"hell"),
    (2, 4, b"llo!"),
    (3, 3, b"lo!."),
    (6, 0, b"...."),
    (7, 0, b"...."),
];

fn files(alloc: Global, fails: &[u64]) -> Result<MemFiles, NoMemory> {
    let Ok(fails) = Vec::from_slice(alloc, fails) else {
        return Err(NoMemory);
    };
    let mut files = MemFiles::new(alloc, fails)?;
    files.put("a", b"hello!")?;
    Ok(files)
}

#[test]
fn files_hold_what_is_written(rt: HostRuntime) {
    let Ok(mut files) = files(rt.alloc(), &[9]) else {
        panic!(rt; "no memory");
    };
    for (at, count, after) in READS {
        let mut buf = *b"....";
        assert!(rt; matches!(files.read_at("a", at, &mut buf), Ok(Some(n)) if n == count));
        assert_eq!(rt; &buf, after);
    }
    let mut buf = *b"....";
    assert!(rt; matches!(files.read_at("b", 0, &mut buf), Ok(None)));
    assert!(rt; files.append("b", b"one").is_ok());
    assert!(rt; files.append("b", b" two").is_ok());
    assert!(rt; matches!(files.append("b", b" three"), Err(Failed)));
    assert!(rt; files.bytes("b") == Some(b"one two".as_slice()));
    assert!(rt; files.create("b").is_ok());
    assert!(rt; files.bytes("b") == Some(b"".as_slice()));
    assert!(rt; files.bytes("a") == Some(b"hello!".as_slice()));
    assert!(rt; files.bytes("c").is_none());
}

fn sink(alloc: Global, fails: &[u64]) -> Result<MemSink, AllocError> {
    match MemSink::new(alloc, Vec::from_slice(alloc, fails)?) {
        Ok(sink) => Ok(sink),
        Err(NoMemory) => Err(AllocError),
    }
}

#[test]
fn a_sink_keeps_what_is_written(rt: HostRuntime) -> Result<(), AllocError> {
    let mut out = sink(rt.alloc(), &[2])?;
    assert!(rt; out.write(b"one").is_ok());
    assert!(rt; matches!(out.write(b"two"), Err(Failed)));
    assert!(rt; out.write(b"three").is_ok());
    assert_eq!(rt; out.bytes(), b"onethree".as_slice());
    Ok(())
}

#[test]
fn no_disk_fails_each_call(rt: HostRuntime) {
    let mut disk = NoDisk::new();
    let mut buf = [0u8; 2];
    assert!(rt; disk.len().is_err());
    assert!(rt; disk.read_at(0, &mut buf).is_err());
    assert!(rt; disk.write_at(0, b"a").is_err());
    assert!(rt; disk.sync().is_err());
}

fn disk(alloc: Global, fails: &[u64]) -> Result<MemDisk, AllocError> {
    match MemDisk::new(alloc, Vec::from_slice(alloc, fails)?) {
        Ok(disk) => Ok(disk),
        Err(NoMemory) => Err(AllocError),
    }
}

// The image after so many calls, where there is one of the length.
fn image(
    disk: &MemDisk,
    alloc: Global,
    calls: usize,
    len: usize,
    choice: &[u8],
) -> Result<Option<Vec<u8>>, AllocError> {
    if calls > disk.calls() || len < disk.least(calls) || disk.most(calls) < len {
        return Ok(None);
    }
    match disk.image(alloc, calls, len, choice) {
        Ok(image) => Ok(Some(image)),
        Err(NoMemory) => Err(AllocError),
    }
}

// The calls of a run: two writes with a sync between them, a read and the length. True for each that came through.
fn run(disk: &mut MemDisk) -> [bool; 5] {
    let mut buf = [0u8; 8];
    [
        disk.write_at(0, b"hello").is_ok(),
        disk.sync().is_ok(),
        disk.len().is_ok(),
        disk.read_at(0, &mut buf).is_ok(),
        match disk.len() {
            Ok(5) => disk.write_at(3, b"XYZ").is_ok(),
            _ => false,
        },
    ]
}

// So many calls, a length, the byte of each free place, and the image after them.
const IMAGES: [(usize, usize, u8, &[u8]); 16] = [
    (0, 0, 1, b""),
    (1, 0, 1, b""),
    (1, 5, 0, b"\0\0\0\0\0"),
    (1, 5, 1, b"\x01\x01\x01\x01\x01"),
    (1, 5, 255, b"\xff\xff\xff\xff\xff"),
    (1, 3, 255, b"\xff\xff\xff"),
    (2, 5, 255, b"hello"),
    (3, 5, 255, b"hello"),
    (5, 5, 0, b"hello"),
    (6, 5, 0, b"hel\0\0"),
    (6, 5, 1, b"hel\x01\x01"),
    (6, 5, 255, b"hel\xff\xff"),
    (6, 6, 0, b"hel\0\0\0"),
    (6, 6, 1, b"hel\x01\x01\x01"),
    (6, 6, 255, b"hel\xff\xff\xff"),
    (6, 6, 108, b"hellll"),
];

// Lengths that no crash leaves after so many calls.
const NO_IMAGES: [(usize, usize); 5] = [(0, 1), (1, 6), (2, 4), (6, 4), (6, 7)];

#[test]
fn images_are_made(rt: HostRuntime) -> Result<(), AllocError> {
    let mut disk = disk(rt.alloc(), &[])?;
    assert_eq!(rt; run(&mut disk), [true; 5]);
    assert!(rt; disk.calls() == 6);
    for (calls, len, fill, want) in IMAGES {
        match image(&disk, rt.alloc(), calls, len, &[fill; 8])? {
            Some(image) => assert_eq!(rt; image.as_slice(), want),
            None => assert!(rt; false),
        }
    }
    for (calls, len) in NO_IMAGES {
        assert!(rt; image(&disk, rt.alloc(), calls, len, b"")?.is_none());
    }
    let Some(image) = image(&disk, rt.alloc(), 6, 6, b"!")? else {
        panic!(rt; "no image");
    };
    assert_eq!(rt; image.as_slice(), b"hel!\0\0".as_slice());
    disk.set_image(image);
    assert!(rt; disk.calls() == 0 && disk.least(0) == 6);
    assert!(rt; disk.write_at(6, b"?").is_ok());
    let mut buf = *b"........";
    assert!(rt; matches!(disk.read_at(2, &mut buf), Ok(5)));
    assert_eq!(rt; buf, *b"l!\0\0?...");
    Ok(())
}

// The calls that fail, one by one, what comes through, and the least and greatest length at the end.
const FAILING: [(u64, [bool; 5], usize, usize); 6] = [
    (1, [false, true, true, true, false], 0, 0),
    (2, [true, false, true, true, true], 0, 6),
    (3, [true, true, false, true, true], 5, 6),
    (4, [true, true, true, false, true], 5, 6),
    (5, [true, true, true, true, false], 5, 5),
    (6, [true, true, true, true, false], 5, 6),
];

#[test]
fn each_call_of_a_disk_fails_in_turn(rt: HostRuntime) -> Result<(), AllocError> {
    for (number, want, least, most) in FAILING {
        let mut disk = disk(rt.alloc(), &[number])?;
        assert_eq!(rt; run(&mut disk), want);
        let calls = disk.calls();
        assert_eq!(rt; (disk.least(calls), disk.most(calls)), (least, most));
    }
    Ok(())
}

// A feed of four events, of which no call or one fails.
fn feed(alloc: Global, fails: &[u64]) -> Result<ListFeed, NoMemory> {
    let Ok(fails) = Vec::from_slice(alloc, fails) else {
        return Err(NoMemory);
    };
    let mut feed = ListFeed::new(alloc, fails)?;
    feed.push(4, Due::Console(2), b"hi")?;
    feed.push(4, Due::Packet(1), b"p")?;
    feed.push(7, Due::Resend(3), b"")?;
    feed.push_clock(10)?;
    feed.push_clock(20)?;
    feed.set_end(9);
    Ok(feed)
}

// The count, whether the machine runs, and the answer.
const ANSWERS: [(u64, bool, Due); 9] = [
    (0, true, Due::Later(4)),
    (3, true, Due::Later(4)),
    (4, true, Due::Console(2)),
    (3, true, Due::Later(4)),
    (3, false, Due::Packet(1)),
    (6, true, Due::Later(7)),
    (7, true, Due::Resend(3)),
    (8, true, Due::Later(9)),
    (9, true, Due::End),
];

#[test]
fn a_feed_gives_its_events(rt: HostRuntime) {
    let Ok(mut feed) = feed(rt.alloc(), &[3, 12]) else {
        panic!(rt; "no memory");
    };
    let mut buf = [0u8; 24576];
    for (count, running, due) in ANSWERS {
        let got = match feed.next(count, running, &mut buf) {
            Ok(due) => Ok(due),
            Err(Failed) => feed.next(count, running, &mut buf),
        };
        assert!(rt; got == Ok(due));
    }
    assert!(rt; buf[0] == b'p' && buf[1] == b'i');
    assert!(rt; matches!(feed.clock(), Ok(10)));
    assert!(rt; feed.clock().is_err());
    assert!(rt; matches!(feed.clock(), Ok(20)));
    assert!(rt; matches!(feed.clock(), Ok(20)));
    assert!(rt; matches!(feed.next(8, false, &mut buf), Ok(Due::End)));
}

#[test]
fn an_outlet_keeps_three_lists(rt: HostRuntime) -> Result<(), AllocError> {
    let fails = Vec::from_slice(rt.alloc(), &[4, 5, 6])?;
    let Ok(mut outlet) = MemOutlet::new(rt.alloc(), fails) else {
        panic!(rt; "no memory");
    };
    assert!(rt; outlet.packet(7, b"one").is_ok());
    assert!(rt; outlet.console(b"a line").is_ok());
    assert!(rt; outlet.authenticator(b"sealed").is_ok());
    assert!(rt; outlet.packet(8, b"lost").is_err());
    assert!(rt; outlet.console(b"lost").is_err());
    assert!(rt; outlet.authenticator(b"lost").is_err());
    assert!(rt; outlet.packet(9, b"two").is_ok());
    assert!(rt; outlet.packet_at(0) == Some((7, b"one".as_slice())));
    assert!(rt; outlet.packet_at(1) == Some((9, b"two".as_slice())));
    assert!(rt; outlet.packet_at(2).is_none());
    assert!(rt; outlet.console_at(0) == Some(b"a line".as_slice()));
    assert!(rt; outlet.console_at(1).is_none());
    assert!(rt; outlet.auth_at(0) == Some(b"sealed".as_slice()));
    assert!(rt; outlet.auth_at(1).is_none());
    Ok(())
}
