//! Why nothing is exported.

ghost use Rattle.std.specs.Prelude.{◌≡◌};
ghost use Rattle.journal_export.specs.Counts.{read_fault, store_fault};

use jrnl_store::StoreFault;
use rebut_pass::ReadFault;

/// Why a segment isn't exported. `NoMemory`: memory is wanting; `DiskFault` and `FilesFault`: a call of the disk or of the files
/// failed; `NoStore`: the disk holds no journal whose header has a head; `Damaged`: no record stands behind the open gate at
/// this place; `Unreplayed`: the entry of this number doesn't replay; `Range`: these entries are no segment.
#[derive(Clone, Copy, Debug, PartialEq, Eq)]
pub enum ExportFault {
    NoMemory,
    DiskFault,
    FilesFault,
    NoStore,
    Damaged(u64),
    Unreplayed(u64),
    Range,
}

/// Why a journal isn't opened.
pub fn of_store(fault: StoreFault) -> ExportFault
    ensures { result ≡ store_fault fault }
{
    match fault {
        StoreFault::NoMemory => ExportFault::NoMemory,
        StoreFault::DiskFault => ExportFault::DiskFault,
        StoreFault::Damaged(place) => ExportFault::Damaged(place),
        _ => ExportFault::NoStore,
    }
}

/// Why a journal isn't read.
pub fn of_read(fault: ReadFault) -> ExportFault
    ensures { result ≡ read_fault fault }
{
    match fault {
        ReadFault::NoMemory => ExportFault::NoMemory,
        ReadFault::DiskFault => ExportFault::DiskFault,
    }
}
