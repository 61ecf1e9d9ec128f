ghost use Rattle.std.specs.Prelude.{◌≡◌};
ghost use Rattle.avm_script.specs.declared.fault.ReadFault.TheVariants as fault;

use avm_num::NoMemory;

/// Why a file isn't read.
#[derive(Clone, Copy, Debug, PartialEq, Eq)]
pub enum ReadFault {
    /// Memory ran out.
    NoMemory,
    /// The bytes are outside the grammar.
    Refused,
}

impl From<NoMemory> for ReadFault {
    ghost from_gives = { λ _ e. e ≡ fault.NoMemory };

    fn from(_: NoMemory) -> Self {
        ReadFault::NoMemory
    }
}
