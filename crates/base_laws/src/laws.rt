//! What holds of a journal that is moved, as the contracts of functions that do nothing.

ghost use Rattle.std.specs.Prelude.{◌≡◌, ℕ, ◌<◌, ◌==◌, ◌∷◌, ◌++◌, List, false};
ghost use Rattle.avm_model.specs.Frame.{FrameData};
ghost use Rattle.avm_model.specs.Head.{HeadData};
ghost use Rattle.avm_model.specs.HeadState.{state_of};
ghost use Rattle.avm_model.specs.Machine.{State};
ghost use Rattle.journal_model.specs.Part.{Part, entry};
ghost use Rattle.journal_model.specs.Journal.{JournalData, Is, journal_of, parts};
ghost use Rattle.journal_model.specs.Spelling.{front_bytes};
ghost use Rattle.journal_spelling.specs.Spelled.{HasSpelling};
ghost use Rattle.honest_model.specs.KeepPages.{IsHeader, WritesHead};
ghost use Rattle.honest_model.specs.Keeps.{HasTrueKeeps};
ghost use Rattle.base_model.specs.Base.{MovedState, Moves, moved, moved_at, base_bytes};
ghost use Rattle.base_laws.specs.Moving.{CanMove, KeepsTell};

/// A journal with a spelling that can be moved has a base with a spelling: the bytes of the base stand for the moved journal,
/// and so do they with any closed gate at their end, whatever stands behind it.
pub fn bases_are_read()
    ensures fits { (j : JournalData) (n : ℕ) (s : MovedState) → HasSpelling j → CanMove j n s → HasSpelling (moved j n s) }
    ensures read { (j : JournalData) (n : ℕ) (s : MovedState) → HasSpelling j → CanMove j n s → journal_of (base_bytes j n s) ≡ Is (moved j n s) }
    ensures behind { (j : JournalData) (n : ℕ) (s : MovedState) (gate : ℕ) (rest : List ℕ) → HasSpelling j → CanMove j n s → (gate == 1) ≡ false → journal_of (front_bytes (moved j n s) ++ gate ∷ rest) ≡ Is (moved j n s) }
{}

/// The keeps of a moved journal are true where those of the journal are, and where they tell the same states from the pages at
/// the entry where it was moved.
pub fn moved_keeps_are_true()
    ensures { (j : JournalData) (a : HeadData) (n : ℕ) (to : State) (before behind : List Part) (f : FrameData) (m : Moves j n (state_of a j.header.pages) to before f) → HasSpelling j → IsHeader j.header a → HasTrueKeeps j → parts j ≡ before ++ entry f ∷ behind → f.seq ≡ n → 1 < n → WritesHead m.at → KeepsTell j n m.at before f behind → HasTrueKeeps (moved_at j n m.at) }
{}
