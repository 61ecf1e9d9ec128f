//! Steps up to the next output.

ghost use Rattle.std.specs.Prelude.{◌≡◌, ◌<◌, ◌-◌, ◌+◌, ◌≤◌, ◌^◌, Some, None};
ghost use Rattle.std.specs.Bool.{OnTrue, OnFalse};
ghost use Rattle.avm_model.specs.Judge.{settle as settle_lem};
ghost use Rattle.avm_model.specs.PageMarks.{MarksPages};
ghost use Rattle.avm_model.specs.Reference.{timed, step_of};
ghost use Rattle.guest_machine.specs.Outs.{IsOuts};
ghost use Rattle.replayer.specs.Pending.{pending_of, stand_of, ram_of};

use guest_machine::{Machine, Outs};

/// One step into the outputs, where the machine can make one; else both are as before.
#[tactic(auto, unfolding(avm_model::specs::Reference::step_of))]
fn step_on(machine: &mut Machine, pending: &mut Outs) -> bool
    requires room { machine.old.state.count < 2 ^ 62 - 1 }
    ensures yes { OnTrue result (step_of machine.old.state ≡ Some (machine.new.state, pending_of machine.new.state pending.new)) }
    ensures no { OnFalse result (step_of machine.old.state ≡ None) }
    ensures same { OnFalse result (machine.new ≡ machine.old) }
    ensures left { OnFalse result (pending.new ≡ pending.old) }
    ensures fits { OnTrue result (IsOuts pending.new) }
    ensures marks { MarksPages (ram_of machine.old) (ram_of machine.new) }
{
    machine.step_into(pending)
}

/// Steps until there is an output, or the count is reached, or no step can be made.
fn advance(machine: &mut Machine, pending: &mut Outs, count: u64)
    requires count { count < 2 ^ 62 }
    requires fits { IsOuts pending.old }
    ensures fits { IsOuts pending.new }
    ensures stand { settle_lem timed count machine.old.state (pending_of machine.old.state pending.old) ≡ stand_of machine.new.state pending.new }
    ensures marks { MarksPages (ram_of machine.old) (ram_of machine.new) }
{
    if !pending.is_empty() {
        return;
    }
    for _ in machine.count()..count {
        if !step_on(machine, pending) {
            return;
        }
        if !pending.is_empty() {
            return;
        }
    }
}

/// Steps until there is an output, or the count is reached, or no step can be made. At most K steps are made, since a
/// snapshot comes at each multiple of K.
pub fn settle(machine: &mut Machine, pending: &mut Outs, count: u64)
    requires count { count < 2 ^ 62 }
    requires fits { IsOuts pending.old }
    ensures fits { IsOuts pending.new }
    ensures stand { settle_lem timed count machine.old.state (pending_of machine.old.state pending.old) ≡ stand_of machine.new.state pending.new }
    ensures marks { MarksPages (ram_of machine.old) (ram_of machine.new) }
    ensures short { machine.new.state.count ≤ machine.old.state.count + machine.old.state.snap }
{
    machine.bounds();
    advance(machine, pending, count);
}
