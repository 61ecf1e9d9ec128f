// Why no key is made.
ghost use Rattle.std.specs.Prelude.{◌≡◌};
ghost use Rattle.keygen_command.specs.declared.fault.Fault.TheVariants as fault;

use avm_num::NoMemory;
use avm_outside::Failed;

/// Memory ran out, or a call on the files failed.
#[derive(Clone, Copy, Debug, PartialEq, Eq)]
pub enum Fault {
    NoMemory,
    Files,
}

impl From<NoMemory> for Fault {
    ghost from_gives = { λ _ e. e ≡ fault.NoMemory };

    fn from(_: NoMemory) -> Self {
        Fault::NoMemory
    }
}

impl From<Failed> for Fault {
    ghost from_gives = { λ _ e. e ≡ fault.Files };

    fn from(_: Failed) -> Self {
        Fault::Files
    }
}
