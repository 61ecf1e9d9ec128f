// What takes printed lines.
ghost use Rattle.std.specs.Prelude.{◌≡◌, ℕ, List, ◌++◌, Option, option_map, OnOk, OnErr};
ghost use Rattle.avm_outside.specs.Outside.{Counts, BothTold, AddsFront};

use crate::Failed;

/// The bytes written so far.
pub trait Sink {
    /// How often a call has failed. It doesn't fall, and stays at the last value of a u64.
    ghost faults: { Self → ℕ };

    /// The bytes, where the object tells them.
    ghost written: { Self → Option (List ℕ) };

    /// Adds bytes. Where that fails a front of them was added.
    fn write(&mut self, bytes: &[u8]) -> Result<(), Failed>
        ensures added { OnOk result (written self.new ≡ option_map (λ was. was ++ bytes.now) (written self.old)) }
        ensures failed { OnErr result (BothTold (written self.old) (written self.new) (AddsFront bytes.now)) }
        ensures faults { Counts (faults self.old) (faults self.new) result };
}
