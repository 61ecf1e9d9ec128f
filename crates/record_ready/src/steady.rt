//! Whether a turn may begin.

ghost use Rattle.std.specs.Bool.{OnTrue, OnFalse};
ghost use Rattle.record_ready.specs.Ready.{IsSteady};

use guest_machine::Machine;

/// The last count at which a step can be made.
const LAST_STEP: u64 = (1 << 62) - 2;

/// Whether a turn may find the machine so: where a clock value is pending, the machine asks for it, and a step can follow.
pub fn is_steady(machine: &Machine) -> bool
    ensures yes { OnTrue result (IsSteady machine.now.state) }
    ensures no { OnFalse result (IsSteady machine.now.state → ⊥) }
{
    if !machine.devices().pending() {
        return true;
    }
    if !machine.asks() {
        return false;
    }
    machine.count() <= LAST_STEP
}
