//! What the definitions of recording say, as the contracts of functions that do nothing.

ghost use Rattle.std.specs.Prelude.{◌≡◌, ℕ, ◌++◌, List, Option, Some, None};
ghost use Rattle.avm_model.specs.Machine.{State};
ghost use Rattle.avm_model.specs.Reference.{timed};
ghost use Rattle.avm_model.specs.Rerun.{moved};
ghost use Rattle.journal_model.specs.Fits.{FitsJournal};
ghost use Rattle.journal_model.specs.Journal.{JournalData, parts, with_record};
ghost use Rattle.journal_model.specs.Part.{Part};
ghost use Rattle.journal_model.specs.Standing.{start, standing};
ghost use Rattle.record_model.specs.Recording.{Recording, Act, Effect, effect, saved, with_seal};
ghost use Rattle.record_model.specs.Released.{Sender, pieces_from};
ghost use Rattle.record_model.specs.Standing.{IsStanding, GoesOn, FitsAct, Ascends};

/// What a recorder does keeps where it stands: the journal and the unsaved batch replay whole, and the machine is the one
/// behind them, moved on by steps without outputs.
pub fn acts_keep_standing()
    ensures moved { (r : Recording) (n : ℕ) (u : State) → IsStanding r → moved timed n r.machine ≡ Some u → IsStanding (record r { machine = u }) }
    ensures act { (who : Sender) (pages : List ℕ) (r : Recording) (act : Act) (e : Effect) → IsStanding r → FitsAct r act → effect who pages r act ≡ Some e → IsStanding e.recording }
    ensures saved { (r : Recording) → IsStanding r → IsStanding (saved r) }
{}

/// The unsaved batch goes on from its journal, whatever a recorder does, and a seal joins it: so it is one that the journal
/// can have as a record.
pub fn acts_go_on()
    ensures act { (who : Sender) (pages : List ℕ) (r : Recording) (act : Act) (e : Effect) → FitsJournal r.journal → Ascends r pages → GoesOn r → FitsAct r act → effect who pages r act ≡ Some e → GoesOn e.recording }
    ensures seal { (r : Recording) → FitsJournal r.journal → GoesOn r → GoesOn (with_seal r) }
{}

/// What is released for a record is what its parts release where they stand in the journal, behind what was released before.
pub fn records_release_their_own()
    ensures { (who : Sender) (j : JournalData) (r : List Part) → pieces_from who (start j.header) (parts (with_record j r)) ≡ pieces_from who (start j.header) (parts j) ++ pieces_from who (standing j) r }
{}
