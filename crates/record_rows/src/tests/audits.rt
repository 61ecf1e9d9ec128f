//! Exported segments under an audit.

use super::running::{NONE, disk_of, export_on, record_on};
use super::stores::{KEY, alone};
use audit_command::audit;
use avm_outside::{MemFiles, MemSink};
use std::alloc::Global;
use test_guests::COUNTS;

/// Whether an audit of a segment alone prints this line and ends with this status.
fn audits_as(alloc: Global, segment: &[u8], line: &str, status: u8) -> Option<bool> {
    let mut files = MemFiles::new(alloc, Vec::new(alloc)).ok()?;
    files.put("s", segment).ok()?;
    let mut out = MemSink::new(alloc, Vec::new(alloc)).ok()?;
    let ended = audit(alloc, &mut files, "s", None, None, &mut out);
    Some(out.bytes() == line.as_bytes() && ended == status)
}

/// The segment of these entries of the guest that counts.
fn segment(alloc: Global, range: (u64, u64)) -> Option<Vec<u8>> {
    let mut disk = disk_of(alloc, &alone(alloc, COUNTS)?, 0)?;
    record_on(alloc, KEY, b"end 2000\n", &mut disk, NONE)?;
    let ran = export_on(alloc, range, &mut disk, NONE)?;
    Vec::from_slice(alloc, ran.file("s")).ok()
}

fn segments_are_accepted(alloc: Global) -> Option<bool> {
    let whole = segment(alloc, (1, 4))?;
    let mut last = segment(alloc, (4, 4))?;
    let accepted = audits_as(alloc, &whole, "accepted 1 to 4 covered 0\n", 0)?
        && audits_as(alloc, &last, "accepted 4 to 4 covered 0\n", 0)?;
    // a byte of its page
    *last.get_mut(5000)? = 1;
    Some(accepted && audits_as(alloc, &last, "refused uncommitted\n", 2)?)
}

#[test]
fn an_exported_segment_is_accepted(rt: HostRuntime) {
    assert_eq!(rt; segments_are_accepted(rt.alloc()), Some(true));
}
