// Events that come by the machine's count.
ghost use Rattle.std.specs.Prelude.{◌≡◌, ℕ, Bool, Option, option_map, IfOk, IfSome, OnOk, OnErr};
ghost use Rattle.avm_outside.specs.Outside.{Counts, BothTold};
ghost use Rattle.avm_outside.specs.declared.due.Due.{Due};
ghost use Rattle.avm_outside.specs.Bounds.{IsBounded};
ghost use Rattle.avm_outside.specs.Feed.{Agenda, Gave, clock_of, with_asked};

use crate::{Due, Failed};

/// Events that remain, each due at a count of the machine; the count of the end; and clock values.
pub trait Feed {
    /// How often a call has failed. It doesn't fall, and stays at the last value of a u64.
    ghost faults: { Self → ℕ };

    /// What it holds, where the object tells it.
    ghost agenda: { Self → Option Agenda };

    /// The answer by what it holds, the machine's count, and whether the machine runs.
    ghost answer: { Agenda → ℕ → Bool → Due };

    /// What comes next. An event that is given is removed, and its bytes stand at the front of the buffer. Where this
    /// fails nothing was removed.
    fn next(&mut self, count: u64, running: bool, buf: &mut [u8; 24576]) -> Result<Due, Failed>
        ensures bounds { IfOk result (λ due. IsBounded due count) }
        ensures answer { IfOk result (λ due. IfSome (agenda self.old) (λ was. due ≡ answer was count running)) }
        ensures given { IfOk result (λ due. BothTold (agenda self.old) (agenda self.new) (λ was now. Gave due was now buf.old buf.new)) }
        ensures failed { OnErr result (agenda self.new ≡ agenda self.old) }
        ensures faults { Counts (faults self.old) (faults self.new) result };

    /// The value for a clock request.
    fn clock(&mut self) -> Result<u64, Failed>
        ensures value { IfOk result (λ value. IfSome (agenda self.old) (λ was. value ≡ clock_of was)) }
        ensures asked { OnOk result (agenda self.new ≡ option_map with_asked (agenda self.old)) }
        ensures failed { OnErr result (agenda self.new ≡ agenda self.old) }
        ensures faults { Counts (faults self.old) (faults self.new) result };
}
