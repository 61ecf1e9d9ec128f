//! Why a store isn't opened.

ghost use Rattle.std.specs.Prelude.{◌≡◌};
ghost use Rattle.store_retain.specs.Retaining.{store_fault};

use jrnl_store::StoreFault;
use store_move::RetainFault;

/// Why a journal isn't opened.
pub fn of_store(fault: StoreFault) -> RetainFault
    ensures { result ≡ store_fault fault }
{
    match fault {
        StoreFault::NoMemory => RetainFault::NoMemory,
        StoreFault::DiskFault => RetainFault::DiskFault,
        StoreFault::Damaged(place) => RetainFault::Damaged(place),
        _ => RetainFault::NoStore,
    }
}
