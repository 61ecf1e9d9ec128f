// Why a journal isn't read.
ghost use Rattle.std.specs.Prelude.{◌≡◌};
ghost use Rattle.rebut_pass.specs.declared.fault.ReadFault.TheVariants as read;

use avm_num::NoMemory;

/// Why a journal isn't read.
#[derive(Clone, Copy, Debug, PartialEq, Eq)]
pub enum ReadFault {
    NoMemory,
    DiskFault,
}

impl From<NoMemory> for ReadFault {
    ghost from_gives = { λ _ e. e ≡ read.NoMemory };

    fn from(_: NoMemory) -> Self {
        ReadFault::NoMemory
    }
}
