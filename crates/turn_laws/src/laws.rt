//! What a recorder's turns are, as the contract of a function that does nothing.

ghost use Rattle.std.specs.Prelude.{◌≡◌, ℕ, List, Some, Result, false, is_some};
ghost use Rattle.avm_model.specs.Machine.{State};
ghost use Rattle.avm_outside.specs.Feed.{Agenda, answer_of};
ghost use Rattle.journal_model.specs.Journal.{JournalData};
ghost use Rattle.journal_model.specs.Part.{Part};
ghost use Rattle.jrnl_store.specs.declared.fault.Stop.{Stop};
ghost use Rattle.record_model.specs.Recording.{Act, is_large};
ghost use Rattle.record_model.specs.Released.{Sender};
ghost use Rattle.record_model.specs.Turn.{Gift, gift_of};
ghost use Rattle.record_parts.specs.Ends.{Faults};
ghost use Rattle.record_parts.specs.declared.answers.Turn.{Turn};
ghost use Rattle.record_turn.specs.Keeping.{Aside};
ghost use Rattle.recorder.specs.Turns.{Feeds, IsGiven, Planned};
ghost use Rattle.turn_laws.specs.Scripts.{ByScript};

use avm_outside::Outlet;

/// A feed that answers as a list of events gives what the script says: the event that is due, the count before which none is, or the
/// end. A turn of a recorder over such a feed is a turn of the script: its act is the one that the plan of the script
/// names, it ends as that act's effect says, and what remains of the script is what the turn leaves of it.
pub fn turns_follow_scripts<O: Outlet>()
    ensures gift { (s : State) (gift : Gift) (held : Agenda) → IsGiven answer_of s gift held → gift ≡ gift_of s held }
    ensures turn { (who : Sender) (gift : Gift) (value : ℕ) (j : JournalData) (b : List Part) (s : State) (aside after : Aside) (batch : List Part) (machine : State) (f : Faults) (old new : O.Held) (result : Result Turn Stop) (next : JournalData) (flight : List Part) (p q : Agenda) (act : Act)
        → is_large b ≡ false → Feeds (is_some s.devices.clock) answer_of s gift value p q
        → (h : Planned O.adding O.tearing who gift value (record { journal = j; batch = b; machine = s }) aside after batch machine f old new result next flight) → h.plan.act ≡ Some act
        → ByScript O.adding O.tearing who j b p q s act (record { journal = next; batch = batch; machine = machine }) f old new result }
{}
