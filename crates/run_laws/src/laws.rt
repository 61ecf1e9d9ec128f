//! What the contract of a turn says, as the contract of a function that does nothing.

ghost use Rattle.std.specs.Prelude.{◌≡◌, ◌⊎◌, ℕ, List, None, false, is_some, Err, Ok};
ghost use Rattle.avm_model.specs.Machine.{State};
ghost use Rattle.avm_outside.specs.Feed.{Agenda, answer_of};
ghost use Rattle.journal_model.specs.Journal.{JournalData};
ghost use Rattle.journal_model.specs.Part.{Part};
ghost use Rattle.journal_model.specs.Saving.{CommitRefusal};
ghost use Rattle.record_model.specs.Recorded.{Run};
ghost use Rattle.record_model.specs.Recording.{is_large};
ghost use Rattle.record_model.specs.Released.{Sender};
ghost use Rattle.record_model.specs.Turn.{Gift};
ghost use Rattle.record_parts.specs.Ends.{Faults};
ghost use Rattle.record_parts.specs.declared.answers.Turn.{Turn};
ghost use Rattle.run_laws.specs.Run.{Behind, Stands, StopsRun, stop_of};
ghost use Rattle.record_turn.specs.Keeping.{Aside};
ghost use Rattle.recorder.specs.Turns.{Feeds, Planned};

use avm_outside::Outlet;

/// A turn that nothing has stopped, of a feed that answers as a list of events does, is a turn of the run of these events: what the
/// journal, the batch, the machine, the outlet and the feed are behind it is what the run has then. Or the run had ended, and
/// nothing is done. A turn whose batch can't be saved is one by which the run is stopped, with nothing released.
pub fn turns_are_of_runs<O: Outlet>()
    ensures goes_on { (who : Sender) (r : Run) (g : Gift) (value : ℕ) (aside after_aside : Aside) (batch : List Part) (machine : State) (f : Faults) (old new : O) (turn : Turn) (next : JournalData) (flight : List Part) (script : Agenda)
        → r.stop ≡ None → is_large r.recording.batch ≡ false → Feeds (is_some r.recording.machine.devices.clock) answer_of r.recording.machine g value r.script script
        → Planned O.adding O.tearing who g value r.recording aside after_aside batch machine f (O.held old) (O.held new) (Ok turn) next flight
        → Behind O.adding who r turn (O.held old) (O.held new) next batch machine script ⊎ Stands r turn (O.held old) (O.held new) next batch machine script }
    ensures stops { (who : Sender) (r : Run) (g : Gift) (value : ℕ) (aside after_aside : Aside) (batch : List Part) (machine : State) (f : Faults) (old new : O) (why : CommitRefusal) (next : JournalData) (flight : List Part) (script : Agenda)
        → r.stop ≡ None → is_large r.recording.batch ≡ false → Feeds (is_some r.recording.machine.devices.clock) answer_of r.recording.machine g value r.script script
        → Planned O.adding O.tearing who g value r.recording aside after_aside batch machine f (O.held old) (O.held new) (Err (stop_of why)) next flight
        → StopsRun who r why (O.held old) (O.held new) next batch machine script }
{}
