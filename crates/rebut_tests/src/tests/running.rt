//! One rebuttal over a disk, files and a sink in memory.

use crate::tests::evidence::Shown;
use crate::tests::stores::Store;
use avm_outside::{Disk, MemDisk, MemFiles, MemSink};
use lms_tree::LmsKey;
use rebut_command::rebut;
use std::alloc::Global;

/// The numbers of the calls that fail: on the disk behind the two that write the store, on the files and on the sink; 0: none.
#[derive(Clone, Copy)]
pub struct Fails {
    pub disk: u64,
    pub files: u64,
    pub out: u64,
}

pub const NONE: Fails = Fails {
    disk: 0,
    files: 0,
    out: 0,
};

/// The disk with these bytes.
fn disk_of(alloc: Global, store: &[u8], fail: u64) -> Option<MemDisk> {
    if store.len() > 1 << 20 || fail > 100 {
        return None;
    }
    let number = if fail == 0 { 0 } else { fail + 2 };
    let mut disk = MemDisk::new(alloc, vec![in alloc; number].ok()?).ok()?;
    disk.write_at(0, store).ok()?;
    disk.sync().ok()?;
    Some(disk)
}

/// Whether a rebuttal by a store prints this and ends with this status.
pub fn ends_as(
    alloc: Global,
    key: &LmsKey,
    store: Store,
    shown: Shown,
    fails: Fails,
    printed: &str,
    status: u8,
) -> Option<bool> {
    let store = store.bytes(alloc)?;
    let mut disk = disk_of(alloc, &store, fails.disk)?;
    let mut files = MemFiles::new(alloc, vec![in alloc; fails.files].ok()?).ok()?;
    if let Some(bytes) = shown.bytes(alloc, key) {
        files.put("evidence", &bytes).ok()?;
    }
    let mut out = MemSink::new(alloc, vec![in alloc; fails.out].ok()?).ok()?;
    let ended = rebut(alloc, &mut disk, &mut files, "evidence", &mut out);
    Some(out.bytes() == printed.as_bytes() && ended == status)
}
