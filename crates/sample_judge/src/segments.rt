//! The segments.

ghost use Rattle.std.specs.Prelude.{◌≡◌, IfOk, option_map};
ghost use Rattle.avm_outside.specs.MemDisks.{disk_bytes};
ghost use Rattle.journal_model.specs.Journal.{Is, JournalData, journal_of};
ghost use Rattle.sample_judge.specs.Ends.{ExportsAs};

use avm_num::NoMemory;
use avm_outside::{MemDisk, MemFiles};
use journal_export::{ExportFault, export};
use std::alloc::Global;

/// The bytes of the segment of some entries; None where they are none.
pub fn segment(
    alloc: Global,
    disk: &mut MemDisk,
    from: u64,
    to: u64,
) -> Result<Option<Vec<u8>>, NoMemory>
    ensures exports { (j : JournalData) → journal_of (disk_bytes disk.old) ≡ Is j → IfOk result (λ o. ExportsAs j from to (option_map (λ v. v.items) o)) }
    ensures same { disk_bytes disk.new ≡ disk_bytes disk.old }
{
    let mut files = MemFiles::new(alloc, Vec::new(alloc))?;
    files.put("segment", &[])?;
    match export(alloc, disk, from, to, &mut files, "segment") {
        Ok(()) => {}
        Err(ExportFault::Range) => return Ok(None),
        Err(ExportFault::Unreplayed(_)) => return Ok(None),
        Err(_) => return Err(NoMemory),
    }
    let Some(bytes) = files.bytes("segment") else {
        return Err(NoMemory);
    };
    match Vec::from_slice(alloc, bytes) {
        Ok(bytes) => Ok(Some(bytes)),
        Err(_) => Err(NoMemory),
    }
}
