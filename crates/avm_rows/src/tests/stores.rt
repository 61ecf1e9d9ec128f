//! Stores made and listed on a disk in memory, and authenticators under two keys whose files aren't there.

use super::running::{run, run_on};
use avm_outside::MemDisk;
use std::alloc::Global;

/// A private key file of docs/FORMATS.md: height 5, w 1, the id 00 01 .. 0f and a seed of 32 bytes 11.
const KEY: &[u8] =
    b"AVMK\x01\x00\x00\x00\x05\x00\x00\x00\x01\x00\x01\x02\x03\x04\x05\x06\x07\x08\x09\x0a\x0b\x0c\x0d\x0e\x0f\x11\x11\x11\x11\x11\x11\x11\x11\x11\x11\x11\x11\x11\x11\x11\x11\x11\x11\x11\x11\x11\x11\x11\x11\x11\x11\x11\x11\x11\x11\x11\x11";

const CONFIG: &[u8] = b"{\"own\":0,\"pages\":1,\"snap\":1024,\"peers\":[]}";

/// A guest that prints `H` and halts: LUI, ADDI, SW, ADDI, SW, ECALL (RISC-V Unprivileged ISA, "RV32I Base Integer
/// Instruction Set").
const IMAGE: &[u8] = &[
    0xb7, 0x02, 0x00, 0x10, 0x13, 0x03, 0x80, 0x04, 0x23, 0xa0, 0x62, 0x00, 0x13, 0x03, 0xa0, 0x00,
    0x23, 0xa0, 0x62, 0x00, 0x73, 0x00, 0x00, 0x00,
];

/// Its BOOT, whose root is an independent program's.
const BOOT: &str = "1 BOOT 0 a0d314be794611a17de42cf222f7a4f0900ced411212e09e77eef95ca8602114\n";

const FORMAT: &[&str] = &[
    "format", "--store", "s", "--key", "k", "--config", "c", "--image", "i",
];

const LIST: &[&str] = &["list", "--store", "s"];

/// A disk with nothing on it.
fn disk(alloc: Global) -> Option<MemDisk> {
    MemDisk::new(alloc, Vec::new(alloc)).ok()
}

#[test]
fn a_store_is_made_and_listed(rt: HostRuntime) {
    let alloc = rt.alloc();
    let mut disk = disk(alloc).expect(&rt, "memory");
    let files: [(&str, &[u8]); 3] = [("k", KEY), ("c", CONFIG), ("i", IMAGE)];
    // the words, the line and the status, one after another on one disk
    let rows: [(&[&str], &str, u8); 4] = [
        (LIST, "refused nostore\n", 2),
        (FORMAT, "store made\n", 0),
        (LIST, BOOT, 0),
        (FORMAT, "refused notempty\n", 2),
    ];
    for (words, line, status) in rows {
        let ran = run_on(alloc, words, &files, &mut disk).expect(&rt, "memory");
        assert!(rt; ran.ended(line, status), "{line}");
    }
}

#[test]
fn files_of_two_levels(rt: HostRuntime) {
    let rows: [(&[&str], &[(&str, &[u8])], &str, u8); 3] = [
        (
            &["widen", "--endorse", "e", "--auths", "a", "--out", "o"],
            &[("a", b"")],
            "refused file --endorse\n",
            3,
        ),
        (
            &[
                "narrow", "--key", "k", "--auths", "a", "--public", "p", "--out", "o",
            ],
            &[("a", b""), ("k", KEY)],
            "refused file --key\n",
            3,
        ),
        (
            &[
                "narrow", "--key", "k", "--auths", "a", "--public", "p", "--out", "p",
            ],
            &[],
            "refused words\n",
            3,
        ),
    ];
    for (words, files, line, status) in rows {
        let ran = run(rt.alloc(), words, files).expect(&rt, "memory");
        assert!(rt; ran.ended(line, status), "{line}");
    }
}
