//! The place of a journal's first gate.

ghost use Rattle.std.specs.Prelude.{◌≡◌, ◌≤◌, ◌^◌, length, IfOk};
ghost use Rattle.journal_model.specs.Spelling.{header_bytes};
ghost use Rattle.journal_spelling.specs.Spelled.{HasSpelling};
ghost use Rattle.jrnl_store.specs.Kept.{kept};
ghost use Rattle.rebut_pass.specs.Reads.{OfJournal, OnlyReads, ReadCounts};
ghost use Rattle.base_place.specs.Sizes.{start_of as start_lem};

use crate::carriage::Carriage;
use avm_outside::Disk;
use jrnl_store::Journal;
use rebut_pass::{ReadFault, read_all};
use std::alloc::Global;

/// The first gate's place behind a header whose first entry has this number, with so many bytes in its head, so many pages, and so
/// many bytes of carried entries.
fn start_of(first: u64, head: usize, pages: u32, size: u64) -> u64
    requires head { head ≤ 16384 }
    requires size { size ≤ 2 ^ 32 }
    ensures { result ≡ start_lem first head pages size }
{
    let fixed = 113 + head as u64 + 4096 * pages as u64;
    if first == 1 { fixed } else { fixed + 1 + size }
}

/// Reads where the records of a journal begin, of whose header the head has so many bytes.
pub fn read_start<D: Disk>(
    alloc: Global,
    journal: &mut Journal,
    disk: &mut D,
    head: usize,
) -> Result<u64, ReadFault>
    requires head { head ≤ 16384 }
    ensures start { IfOk result (λ n. OfJournal (D.seen disk.old) (kept journal.old) (λ j. HasSpelling j → head ≡ length j.header.head → n ≡ length (header_bytes j.header))) }
    ensures kept { kept journal.new ≡ kept journal.old }
    ensures reads { OnlyReads D.seen D.may_leave D.moment D.left_since disk.old disk.new }
    ensures faults { ReadCounts (D.faults disk.old) (D.faults disk.new) result }
{
    let mut carriage = Carriage { size: 0 };
    match read_all(alloc, journal, disk, &mut carriage) {
        Ok(()) => Ok(start_of(journal.first(), head, journal.page_count(), carriage.size)),
        Err(fault) => Err(fault),
    }
}
