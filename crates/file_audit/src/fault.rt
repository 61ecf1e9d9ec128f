// Why reading and judging end without an answer.
ghost use Rattle.std.specs.Prelude.{◌≡◌};
ghost use Rattle.file_audit.specs.declared.fault.Fault.TheVariants as fault;

use avm_num::NoMemory;
use avm_outside::Failed;
use std::alloc::AllocError;

/// Memory ran out, or a call on the files failed.
#[derive(Clone, Copy, Debug, PartialEq, Eq)]
pub enum Fault {
    NoMemory,
    Files,
}

impl From<AllocError> for Fault {
    ghost from_gives = { λ _ e. e ≡ fault.NoMemory };

    fn from(_: AllocError) -> Self {
        Fault::NoMemory
    }
}

impl From<NoMemory> for Fault {
    ghost from_gives = { λ _ e. e ≡ fault.NoMemory };

    fn from(_: NoMemory) -> Self {
        Fault::NoMemory
    }
}

impl From<Failed> for Fault {
    ghost from_gives = { λ _ e. e ≡ fault.Files };

    fn from(_: Failed) -> Self {
        Fault::Files
    }
}
