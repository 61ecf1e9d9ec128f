//! One listing over a disk and a sink in memory.

use avm_outside::{Disk, MemDisk, MemSink};
use list_command::list;
use std::alloc::Global;

/// The disk with these bytes, of which one later call fails (0: none). Two calls write them.
fn disk_of(alloc: Global, store: &[u8], fail: u64) -> Option<MemDisk> {
    if store.len() > 1 << 20 || fail > 100 {
        return None;
    }
    let number = if fail == 0 { 0 } else { fail + 2 };
    let mut disk = MemDisk::new(alloc, vec![in alloc; number].ok()?).ok()?;
    disk.write_at(0, store).ok()?;
    disk.sync().ok()?;
    Some(disk)
}

/// Whether a listing of a store, in which one call on the disk and one print fail (0: none), prints this and ends with this
/// status.
pub fn ends_as(
    alloc: Global,
    store: &[u8],
    fails: (u64, u64),
    printed: &str,
    status: u8,
) -> Option<bool> {
    let mut disk = disk_of(alloc, store, fails.0)?;
    let mut out = MemSink::new(alloc, vec![in alloc; fails.1].ok()?).ok()?;
    let ended = list(alloc, &mut disk, &mut out);
    Some(out.bytes() == printed.as_bytes() && ended == status)
}

/// Whether a listing of a store prints this and ends with this status.
pub fn lists_as(alloc: Global, store: &[u8], printed: &str, status: u8) -> bool {
    ends_as(alloc, store, (0, 0), printed, status) == Some(true)
}
