//! Stores, as an independent program makes them.

use std::alloc::Global;

/// What a store begins with: the key, the guest, and the root of its first state; in hexadecimal digits.
#[derive(Clone, Copy)]
struct Start {
    key: &'static str,
    image: &'static str,
    root: &'static str,
}

/// The hash of the public key of height 5 and w 8 with the id 00 to 0f and a seed of bytes 11, and with a seed of bytes 22.
const OWN: &str = "84fa12b1dfa8b4afdc76ca3a26a35fb1870396261fd727890f2407e4df7f1289";

const OTHER: &str = "d69345e21fcf688042f3b32186ade96f3350f1ae9b48ca26dcbbb96fb8272fd8";

/// A guest that prints `H` and halts, and one that jumps to itself (RISC-V Unprivileged ISA, "RV32I Base Integer Instruction Set").
const PRINTS: Start = Start {
    key: OWN,
    image: "b70200101303800423a062001303a00023a0620073000000",
    root: "a0d314be794611a17de42cf222f7a4f0900ced411212e09e77eef95ca8602114",
};

const LOOPS: Start = Start {
    key: OWN,
    image: "6f000000",
    root: "7d53a858e54cbe7bdb36f06170c08be5430aa2d10e4c97c3284ace3911f3dc79",
};

/// A guest that prints `H` without a newline, loops, and halts at count 1024.
const SNAPS: Start = Start {
    key: OWN,
    image: "b70200101303800423a06200130000009303d01f9383f3ffe39e03fe73000000",
    root: "9259009b9311f8a6d04c440087cab4d78ddf3223d91b6c5c08a77c8a0ba9fea4",
};

/// The parts of records: entries 2 and 3 of the guest that prints, and the same with the line a count too early; entries 2 to 4 of
/// the guest that snaps; a seal, and the mark of entry 4 (docs/FORMATS.md, "Journal").
const LINE: &str = "010000000000000002070000000a0000000000000005480a";

const EARLY_LINE: &str = "010000000000000002070000000a0000000000000004480a";

const HALT: &str = "010000000000000003090000001000000000000000060000000100000000";

const SNAPPED: &str =
    "010000000000000002070000000900000000000004004801000000000000000309000000100000000000000400000000010000000001000000000000000402000000280000000000000400d371e5ef6b9b6ee48f96cf6189754b5a62e6b7eaaf5c902e66e8e3594289e564";

const SEAL: &str = "02";

const MARK: &str = "040000000000000004";

/// The bytes of a base at entry 4 of the guest that snaps that aren't zero, each piece behind its place.
const BASE: [(usize, &str); 5] = [
    (
        0,
        "41564d4a020000000500000004000102030405060708090a0b0c0d0e0f84fa12b1dfa8b4afdc76ca3a26a35fb1870396261fd727890f2407e4df7f12890000000000000004caf31457da3467b762c6142983fe145ef826564fa57c68fc237a702541cec4cd0000000000000000000004a801000000040000000001",
    ),
    (140, "1000000000000048"),
    (248, "8000001c000000000000040002"),
    (
        1305,
        "b70200101303800423a06200130000009303d01f9383f3ffe39e03fe73",
    ),
    (
        5402,
        "010000003601000000000000000402000000280000000000000400d371e5ef6b9b6ee48f96cf6189754b5a62e6b7eaaf5c902e66e8e3594289e564010000000102",
    ),
];

fn put(all: &mut [u8], at: usize, bytes: &[u8]) {
    for i in 0..bytes.len() {
        if at < all.len() && i < all.len() - at {
            all[at + i] = bytes[i];
        }
    }
}

fn put_text(alloc: Global, all: &mut [u8], at: usize, text: &str) -> Option<()> {
    let bytes = hex::decode(alloc, text).ok()?;
    put(all, at, &bytes);
    Some(())
}

/// A new store: the header with the key, the head of a machine with one page, the guest, and the record with BOOT between its gates.
fn fresh(alloc: Global, start: Start) -> Option<Vec<u8>> {
    let mut all = vec![in alloc; 0u8; 5461].ok()?;
    put(
        &mut all,
        0,
        b"AVMJ\x01\x00\x00\x00\x05\x00\x00\x00\x04\x00\x01\x02\x03\x04\x05\x06\x07\x08\x09\x0a\x0b\x0c\x0d\x0e\x0f",
    );
    put_text(alloc, &mut all, 29, start.key)?;
    put_text(alloc, &mut all, 68, "01")?;
    put_text(alloc, &mut all, 111, "04a801000000040000000001")?;
    put_text(alloc, &mut all, 248, "80")?;
    put_text(alloc, &mut all, 1305, start.image)?;
    put_text(
        alloc,
        &mut all,
        5401,
        "010000003601000000000000000101000000280000000000000000",
    )?;
    put_text(alloc, &mut all, 5428, start.root)?;
    Some(all)
}

/// A store with one record more: its last gate is opened, and a length, the parts and a closed gate stand behind.
fn with_record(alloc: Global, store: &[u8], parts: &[&str]) -> Option<Vec<u8>> {
    let mut items = Vec::new(alloc);
    for part in parts {
        let bytes = hex::decode(alloc, part).ok()?;
        items.extend_from_slice(&bytes).ok()?;
    }
    let mut all = Vec::new(alloc);
    all.extend_from_slice(store).ok()?;
    let _ = all.pop();
    all.push(1).ok()?;
    let size = u32::try_from(items.len()).ok()?;
    all.extend_from_slice(&size.to_be_bytes()).ok()?;
    all.extend_from_slice(&items).ok()?;
    all.push(0).ok()?;
    Some(all)
}

/// The stores that answer.
#[derive(Clone, Copy, Debug, PartialEq, Eq)]
pub enum Store {
    /// Nothing.
    Empty,
    /// BOOT of the guest that prints, sealed; the same under another key, and with a head that is none.
    Printing,
    OtherKey,
    NoHead,
    /// All of its entries, sealed; a record cut short; and a line too early.
    Printed,
    Cut,
    Early,
    /// BOOT of the guest that loops, sealed.
    Looping,
    /// All entries of the guest that snaps, sealed and retired; and the base behind it.
    Retired,
    Base,
}

fn base(alloc: Global) -> Option<Vec<u8>> {
    let mut all = vec![in alloc; 0u8; 5468].ok()?;
    for (at, text) in BASE {
        put_text(alloc, &mut all, at, text)?;
    }
    Some(all)
}

fn printed(alloc: Global, line: &str) -> Option<Vec<u8>> {
    with_record(alloc, &fresh(alloc, PRINTS)?, &[line, HALT, SEAL])
}

fn cut(alloc: Global) -> Option<Vec<u8>> {
    let mut all = printed(alloc, LINE)?;
    for _ in 0..20 {
        let _ = all.pop();
    }
    Some(all)
}

fn headless(alloc: Global) -> Option<Vec<u8>> {
    let mut all = with_record(alloc, &fresh(alloc, PRINTS)?, &[SEAL])?;
    put(&mut all, 113, &[9]);
    Some(all)
}

fn retired(alloc: Global) -> Option<Vec<u8>> {
    let snapped = with_record(alloc, &fresh(alloc, SNAPS)?, &[SNAPPED, SEAL])?;
    with_record(alloc, &snapped, &[MARK])
}

impl Store {
    /// Its bytes.
    pub fn bytes(self, alloc: Global) -> Option<Vec<u8>> {
        match self {
            Store::Empty => Some(Vec::new(alloc)),
            Store::Printing => with_record(alloc, &fresh(alloc, PRINTS)?, &[SEAL]),
            Store::OtherKey => {
                let start = Start {
                    key: OTHER,
                    ..PRINTS
                };
                with_record(alloc, &fresh(alloc, start)?, &[SEAL])
            }
            Store::NoHead => headless(alloc),
            Store::Printed => printed(alloc, LINE),
            Store::Cut => cut(alloc),
            Store::Early => printed(alloc, EARLY_LINE),
            Store::Looping => with_record(alloc, &fresh(alloc, LOOPS)?, &[SEAL]),
            Store::Retired => retired(alloc),
            Store::Base => base(alloc),
        }
    }
}
