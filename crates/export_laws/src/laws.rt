//! Exported segments, as the contracts of functions that do nothing.

ghost use Rattle.std.specs.Prelude.{◌≡◌, ℕ, true, None};
ghost use Rattle.avm_model.specs.Machine.{State};
ghost use Rattle.export_model.specs.Exports.{IsStateAt, begins_at};
ghost use Rattle.honest_model.specs.Keeps.{IsStretch};
ghost use Rattle.journal_model.specs.Fits.{FitsJournal};
ghost use Rattle.journal_model.specs.Journal.{JournalData, entries};

/// In the state at an entry that a segment may begin at no clock waits, where the entries up to it replay: so the state has a head.
#[tactic(auto, using(crate::proofs::Still::still))]
pub fn exports_stand_still()
    ensures { (j : JournalData) (n : ℕ) (s : State) → FitsJournal j → IsStretch j n None → IsStateAt j n s → begins_at n (entries j) ≡ true → s.devices.clock ≡ None }
{}
