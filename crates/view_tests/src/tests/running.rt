//! One view over a file and a sink in memory.

use avm_outside::{MemFiles, MemSink};
use std::alloc::Global;
use view_command::{StateAsked, view_at, view_changes};

/// Kinds of entries.
pub const CONIN: u8 = 3;

pub const OUT: u8 = 7;

pub const HALT: u8 = 9;

/// A halt by ECALL with 0.
pub const CALL: &[u8] = &[0, 0, 0, 1, 0, 0, 0, 0];

/// What is asked of a segment.
#[derive(Clone, Copy)]
pub enum Asked {
    State(u64, u32, u32),
    Changes(u32),
}

fn files(alloc: Global, segment: Option<&[u8]>, fail: u64) -> Option<MemFiles> {
    let mut files = MemFiles::new(alloc, vec![in alloc; fail].ok()?).ok()?;
    if let Some(bytes) = segment {
        files.put("s", bytes).ok()?;
    }
    Some(files)
}

/// Whether a view of the file `s`, in which one call on the files and one print fail (0: none), prints this and ends with this
/// status.
pub fn ends_as(
    alloc: Global,
    segment: Option<&[u8]>,
    asked: Asked,
    fails: (u64, u64),
    printed: &str,
    status: u8,
) -> Option<bool> {
    let mut files = files(alloc, segment, fails.0)?;
    let mut out = MemSink::new(alloc, vec![in alloc; fails.1].ok()?).ok()?;
    let ended = match asked {
        Asked::State(count, from, words) => {
            let asked = StateAsked { count, from, words };
            view_at(alloc, &mut files, "s", &asked, &mut out)
        }
        Asked::Changes(address) => view_changes(alloc, &mut files, "s", address, &mut out),
    };
    Some(out.bytes() == printed.as_bytes() && ended == status)
}

/// Whether a view of a segment prints this and ends with this status.
pub fn views_as(alloc: Global, segment: &[u8], asked: Asked, printed: &str, status: u8) -> bool {
    ends_as(alloc, Some(segment), asked, (0, 0), printed, status) == Some(true)
}
