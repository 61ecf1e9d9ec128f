// Why there is no answer.
ghost use Rattle.std.specs.Prelude.{◌≡◌};
ghost use Rattle.rebuttal.specs.Answers.{of_reading};

use rebut_pass::ReadFault;

/// Why there is no answer: no memory, a fault of the disk, the number of the first entry of the journal that doesn't replay, or a
/// journal that doesn't cover the evidence.
#[derive(Clone, Copy, Debug, PartialEq, Eq)]
pub enum RebutFault {
    NoMemory,
    DiskFault,
    Unreplayed(u64),
    Uncovered,
}

/// A fault of reading, as one of answering.
pub fn read_fault(fault: ReadFault) -> RebutFault
    ensures { result ≡ of_reading fault }
{
    match fault {
        ReadFault::NoMemory => RebutFault::NoMemory,
        ReadFault::DiskFault => RebutFault::DiskFault,
    }
}
