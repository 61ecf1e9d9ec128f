//! Why a store isn't read.

ghost use Rattle.std.specs.Prelude.{◌≡◌};
ghost use Rattle.base_build.specs.Counts.{read_fault};

use rebut_pass::ReadFault;
use store_move::RetainFault;

/// Why a journal isn't read.
pub fn of_read(fault: ReadFault) -> RetainFault
    ensures { result ≡ read_fault fault }
{
    match fault {
        ReadFault::NoMemory => RetainFault::NoMemory,
        ReadFault::DiskFault => RetainFault::DiskFault,
    }
}
