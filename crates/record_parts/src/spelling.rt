//! Steps up to the first output, or to where none can follow.

ghost use Rattle.std.specs.Prelude.{◌≡◌, ℕ, ◌<◌, ◌+◌, ◌-◌, ◌≤◌, ◌^◌, true, Some, None};
ghost use Rattle.std.specs.Bool.{OnTrue, OnFalse};
ghost use Rattle.avm_model.specs.PageMarks.{MarksPages};
ghost use Rattle.avm_model.specs.Reference.{step_of};
ghost use Rattle.guest_machine.specs.Outs.{IsEmpty, IsOuts};
ghost use Rattle.record_model.specs.Turn.{goes_on};
ghost use Rattle.record_parts.specs.Outs.{outs_made, ram_in};
ghost use Rattle.record_parts.specs.Spell.{IsSpellTo};

use guest_machine::{Machine, Outs};

/// The most steps of a turn.
const MOST_STEPS: u64 = 65_536;

/// One step into the outputs, where the machine can make one; else both are as before.
#[tactic(auto, unfolding(avm_model::specs::Reference::step_of))]
pub fn step_on(machine: &mut Machine, outs: &mut Outs) -> bool
    requires room { machine.old.state.count < 2 ^ 62 - 1 }
    ensures yes { OnTrue result (step_of machine.old.state ≡ Some (machine.new.state, outs_made machine.new.state outs.new)) }
    ensures no { OnFalse result (step_of machine.old.state ≡ None) }
    ensures same { OnFalse result (machine.new ≡ machine.old) }
    ensures left { OnFalse result (outs.new ≡ outs.old) }
    ensures fits { OnTrue result (IsOuts outs.new) }
    ensures marks { MarksPages (ram_in machine.old) (ram_in machine.new) }
{
    machine.step_into(outs)
}

/// Makes steps up to the first that has outputs, or to where none can follow: the count is the given one, the machine
/// doesn't run, or it asks. At most 65,536 are made. It gives how many.
pub fn spell(machine: &mut Machine, outs: &mut Outs, until: u64) -> u64
    requires goes { goes_on until machine.old.state ≡ true }
    requires clock { machine.old.state.devices.clock ≡ None }
    requires empty { IsEmpty outs.old }
    requires fits { IsOuts outs.old }
    requires later { machine.old.state.count < until }
    requires most { until < 2 ^ 62 }
    ensures spell { IsSpellTo until machine.old.state machine.new.state outs.new result }
    ensures clock { machine.new.state.devices.clock ≡ None }
    ensures fits { IsOuts outs.new }
    ensures below { machine.new.state.count ≤ until }
    ensures marks { MarksPages (ram_in machine.old) (ram_in machine.new) }
{
    for made in 0..MOST_STEPS {
        if machine.count() == until {
            return made;
        }
        if !step_on(machine, outs) {
            return made;
        }
        if !outs.is_empty() {
            return made + 1;
        }
    }
    MOST_STEPS
}
