//! One command over files, disks and a sink in memory.

use super::stores::KEY;
use avm_outside::{Disk, MemDisk, MemFiles, MemSink};
use list_command::list;
use record_command::{RecordNames, record};
use retain_command::retain;
use std::alloc::Global;

/// The names of a recording's files.
const NAMES: RecordNames<'static> = RecordNames {
    key: "k",
    script: "s",
    packets: "p",
    console: "c",
    auths: "a",
};

/// What a command leaves.
#[derive(Drop)]
pub struct Ran {
    pub status: u8,
    pub files: MemFiles,
    pub out: MemSink,
}

impl Ran {
    /// Whether it printed these lines, and ended with this status.
    pub fn ended(&self, lines: &str, status: u8) -> bool {
        self.out.bytes() == lines.as_bytes() && self.status == status
    }

    /// The packets that it released.
    pub fn packets(&self) -> &[u8] {
        self.files.bytes("p").unwrap_or(&[])
    }
}

/// A disk with these bytes, whose call of this number behind them fails (0: none).
pub fn disk_of(alloc: Global, bytes: &[u8], fail: u64) -> Option<MemDisk> {
    if bytes.len() > 1 << 20 {
        return None;
    }
    let number = if fail == 0 { 0 } else { fail.wrapping_add(2) };
    let mut disk = MemDisk::new(alloc, vec![in alloc; number].ok()?).ok()?;
    disk.write_at(0, bytes).ok()?;
    disk.sync().ok()?;
    Some(disk)
}

/// The bytes of a disk.
pub fn bytes_of(alloc: Global, disk: &mut MemDisk) -> Option<Vec<u8>> {
    let len = disk.len().ok()?;
    let mut bytes = vec![in alloc; 0u8; usize::try_from(len).ok()?].ok()?;
    disk.read_at(0, &mut bytes).ok()?;
    Some(bytes)
}

/// A recording of a script.
pub fn record_on(alloc: Global, script: &[u8], disk: &mut MemDisk) -> Option<Ran> {
    let mut files = MemFiles::new(alloc, Vec::new(alloc)).ok()?;
    files.put("k", KEY).ok()?;
    files.put("s", script).ok()?;
    let mut out = MemSink::new(alloc, Vec::new(alloc)).ok()?;
    let status = record(alloc, &mut files, disk, NAMES, &mut out);
    Some(Ran { status, files, out })
}

/// A retain at an entry of this number, whose print of this number fails (0: none).
pub fn retain_printing<D: Disk, E: Disk>(
    alloc: Global,
    disk: &mut D,
    at: u64,
    spare: &mut E,
    print: u64,
) -> Option<Ran> {
    let files = MemFiles::new(alloc, Vec::new(alloc)).ok()?;
    let mut out = MemSink::new(alloc, vec![in alloc; print].ok()?).ok()?;
    let status = retain(alloc, disk, at, spare, &mut out);
    Some(Ran { status, files, out })
}

/// A retain at an entry of this number.
pub fn retain_on<D: Disk, E: Disk>(
    alloc: Global,
    disk: &mut D,
    at: u64,
    spare: &mut E,
) -> Option<Ran> {
    retain_printing(alloc, disk, at, spare, 0)
}

/// The lines of a store. None where it isn't listed.
pub fn lines_of(alloc: Global, disk: &mut MemDisk) -> Option<MemSink> {
    let mut out = MemSink::new(alloc, Vec::new(alloc)).ok()?;
    if list(alloc, disk, &mut out) == 0 {
        Some(out)
    } else {
        None
    }
}

/// Whether a store has these lines.
pub fn lists_as(alloc: Global, disk: &mut MemDisk, lines: &str) -> bool {
    match lines_of(alloc, disk) {
        Some(out) => out.bytes() == lines.as_bytes(),
        None => false,
    }
}
