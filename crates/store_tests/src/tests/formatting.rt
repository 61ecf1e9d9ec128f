//! One `format` over files, a disk and a sink in memory.

use avm_outside::{MemDisk, MemFiles, MemSink};
use format_command::format;
use std::alloc::Global;

/// A private key file of docs/FORMATS.md: height 5, w 1, the id 00 01 .. 0f and a seed of 32 bytes 11.
pub const KEY: &[u8; 61] =
    b"AVMK\x01\x00\x00\x00\x05\x00\x00\x00\x01\x00\x01\x02\x03\x04\x05\x06\x07\x08\x09\x0a\x0b\x0c\x0d\x0e\x0f\x11\x11\x11\x11\x11\x11\x11\x11\x11\x11\x11\x11\x11\x11\x11\x11\x11\x11\x11\x11\x11\x11\x11\x11\x11\x11\x11\x11\x11\x11\x11\x11";

pub const CONFIG: &[u8] = b"{\"own\":0,\"pages\":1,\"snap\":1024,\"peers\":[]}";

/// A guest that prints `H` and halts: LUI, ADDI, SW, ADDI, SW, ECALL (RISC-V Unprivileged ISA, "RV32I Base Integer
/// Instruction Set").
pub const IMAGE: &[u8] = &[
    0xb7, 0x02, 0x00, 0x10, 0x13, 0x03, 0x80, 0x04, 0x23, 0xa0, 0x62, 0x00, 0x13, 0x03, 0xa0, 0x00,
    0x23, 0xa0, 0x62, 0x00, 0x73, 0x00, 0x00, 0x00,
];

/// The files of `format`; none where one is left out.
#[derive(Clone, Copy)]
pub struct Inputs<'a> {
    pub key: Option<&'a [u8]>,
    pub config: Option<&'a [u8]>,
    pub image: Option<&'a [u8]>,
}

/// All of them as they ought to be.
pub const ALL: Inputs<'static> = Inputs {
    key: Some(KEY),
    config: Some(CONFIG),
    image: Some(IMAGE),
};

/// The numbers of the calls that fail: on the files, the disk and the sink; 0: none.
#[derive(Clone, Copy)]
pub struct Fails {
    pub files: u64,
    pub disk: u64,
    pub out: u64,
}

pub const NONE: Fails = Fails {
    files: 0,
    disk: 0,
    out: 0,
};

fn files(alloc: Global, inputs: Inputs<'_>, fail: u64) -> Option<MemFiles> {
    let mut files = MemFiles::new(alloc, vec![in alloc; fail].ok()?).ok()?;
    if let Some(bytes) = inputs.key {
        files.put("key", bytes).ok()?;
    }
    if let Some(bytes) = inputs.config {
        files.put("config", bytes).ok()?;
    }
    if let Some(bytes) = inputs.image {
        files.put("image", bytes).ok()?;
    }
    Some(files)
}

/// A disk with nothing on it, of which one call fails.
pub fn disk(alloc: Global, fail: u64) -> Option<MemDisk> {
    MemDisk::new(alloc, vec![in alloc; fail].ok()?).ok()
}

/// Whether formatting prints this and ends with this status.
pub fn formats_as(
    alloc: Global,
    inputs: Inputs<'_>,
    disk: &mut MemDisk,
    fails: Fails,
    printed: &str,
    status: u8,
) -> Option<bool> {
    let mut files = files(alloc, inputs, fails.files)?;
    let mut out = MemSink::new(alloc, vec![in alloc; fails.out].ok()?).ok()?;
    let ended = format(alloc, &mut files, "key", "config", "image", disk, &mut out);
    Some(out.bytes() == printed.as_bytes() && ended == status)
}
