//! One command over files, a disk and a sink in memory.

use avm_outside::{Disk, MemDisk, MemFiles, MemSink};
use export_command::export;
use list_command::list;
use record_command::{RecordNames, record};
use std::alloc::Global;

/// The names of a recording's files.
const NAMES: RecordNames<'static> = RecordNames {
    key: "k",
    script: "s",
    packets: "p",
    console: "c",
    auths: "a",
};

/// What is in a segment's file before.
pub const OLD: &[u8] = b"old";

/// The numbers of the call on the files and of the print that fail (0: none).
#[derive(Clone, Copy)]
pub struct Fails {
    pub files: u64,
    pub print: u64,
}

pub const NONE: Fails = Fails { files: 0, print: 0 };

/// What a command leaves.
#[derive(Drop)]
pub struct Ran {
    pub status: u8,
    pub files: MemFiles,
    pub out: MemSink,
}

impl Ran {
    /// Whether it printed these lines, and ended with this status.
    pub fn ended(&self, lines: &str, status: u8) -> bool {
        self.out.bytes() == lines.as_bytes() && self.status == status
    }

    /// The bytes of a file; none where it isn't there.
    pub fn file(&self, name: &str) -> &[u8] {
        self.files.bytes(name).unwrap_or(&[])
    }
}

fn files_of(alloc: Global, given: &[(&str, &[u8])], fail: u64) -> Option<MemFiles> {
    let mut files = MemFiles::new(alloc, vec![in alloc; fail].ok()?).ok()?;
    for (name, bytes) in given {
        files.put(name, bytes).ok()?;
    }
    Some(files)
}

fn sink_of(alloc: Global, fail: u64) -> Option<MemSink> {
    MemSink::new(alloc, vec![in alloc; fail].ok()?).ok()
}

/// A disk with these bytes, whose call of this number behind them fails (0: none).
pub fn disk_of(alloc: Global, bytes: &[u8], fail: u64) -> Option<MemDisk> {
    if bytes.len() > 1 << 20 {
        return None;
    }
    let number = if fail == 0 { 0 } else { fail.wrapping_add(2) };
    let mut disk = MemDisk::new(alloc, vec![in alloc; number].ok()?).ok()?;
    disk.write_at(0, bytes).ok()?;
    disk.sync().ok()?;
    Some(disk)
}

/// The bytes of a disk, of which one call may still fail.
pub fn bytes_of(alloc: Global, disk: &mut MemDisk) -> Option<Vec<u8>> {
    let len = match disk.len() {
        Ok(len) => len,
        Err(_) => disk.len().ok()?,
    };
    let mut bytes = vec![in alloc; 0u8; usize::try_from(len).ok()?].ok()?;
    if disk.read_at(0, &mut bytes).is_err() {
        disk.read_at(0, &mut bytes).ok()?;
    }
    Some(bytes)
}

/// The image that a crash behind the first calls of a disk leaves, so many: with the least or the greatest length, and this byte
/// in each free place.
pub fn crashed(
    alloc: Global,
    disk: &MemDisk,
    calls: usize,
    long: bool,
    fill: u8,
) -> Option<Vec<u8>> {
    if calls > disk.calls() {
        return None;
    }
    let least = disk.least(calls);
    let most = disk.most(calls);
    let len = if long { most } else { least };
    if least > len || len > most {
        return None;
    }
    disk.image(alloc, calls, len, &[fill; 4096]).ok()
}

/// A recording of these files on a disk.
pub fn record_files<D: Disk>(
    alloc: Global,
    given: &[(&str, &[u8])],
    disk: &mut D,
    fails: Fails,
) -> Option<Ran> {
    let mut files = files_of(alloc, given, fails.files)?;
    let mut out = sink_of(alloc, fails.print)?;
    let status = record(alloc, &mut files, disk, NAMES, &mut out);
    Some(Ran { status, files, out })
}

/// A recording of a script under a private key.
pub fn record_on(
    alloc: Global,
    key: &[u8],
    script: &[u8],
    disk: &mut MemDisk,
    fails: Fails,
) -> Option<Ran> {
    record_files(alloc, &[("k", key), ("s", script)], disk, fails)
}

/// The lines of a store. None where it isn't listed.
pub fn lines_of(alloc: Global, disk: &mut MemDisk) -> Option<MemSink> {
    let mut out = sink_of(alloc, 0)?;
    if list(alloc, disk, &mut out) == 0 {
        Some(out)
    } else {
        None
    }
}

/// Whether a store has these lines.
pub fn lists_as(alloc: Global, disk: &mut MemDisk, lines: &str) -> bool {
    match lines_of(alloc, disk) {
        Some(out) => out.bytes() == lines.as_bytes(),
        None => false,
    }
}

/// An export of entries of a store.
pub fn export_on<D: Disk>(
    alloc: Global,
    range: (u64, u64),
    disk: &mut D,
    fails: Fails,
) -> Option<Ran> {
    let mut files = files_of(alloc, &[("s", OLD)], fails.files)?;
    let mut out = sink_of(alloc, fails.print)?;
    let status = export(alloc, &mut files, disk, range.0, range.1, "s", &mut out);
    Some(Ran { status, files, out })
}

/// Whether bytes are a front of others.
pub fn is_front(front: &[u8], whole: &[u8]) -> bool {
    whole.get(..front.len()) == Some(front)
}
