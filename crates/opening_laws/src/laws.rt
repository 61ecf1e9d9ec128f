//! That what opening a journal finds is one, as the contract of a function that does nothing.

ghost use Rattle.std.specs.Prelude.{◌≡◌, ℕ, List, Option};
ghost use Rattle.avm_model.specs.Frame.{FrameData};
ghost use Rattle.avm_model.specs.Machine.{State};
ghost use Rattle.avm_model.specs.Reference.{IsFaultNumber};
ghost use Rattle.journal_model.specs.Journal.{JournalData};
ghost use Rattle.journal_model.specs.Part.{Part};
ghost use Rattle.honest_model.specs.Honest.{IsJournalFault};
ghost use Rattle.honest_model.specs.Keeps.{IsBase, IsOpenFault, IsOpened, IsStretch};

/// For each number a journal has at most one base, and the entries behind it at most one first fault: so a journal is opened in
/// one way, to one machine or to one fault.
pub fn opening_is_one()
    ensures base { (j : JournalData) (n : ℕ) (front behind front_2 behind_2 : List Part) (s t : State) → IsBase j n front behind s → IsBase j n front_2 behind_2 t → (front ≡ front_2) × (behind ≡ behind_2) × (s ≡ t) }
    ensures number { (s : State) (fs : List FrameData) (a b : Option ℕ) → IsFaultNumber s fs a → IsFaultNumber s fs b → a ≡ b }
    ensures journal { (j : JournalData) (a b : Option ℕ) → IsJournalFault j a → IsJournalFault j b → a ≡ b }
    ensures stretch { (j : JournalData) (n : ℕ) (a b : Option ℕ) → IsStretch j n a → IsStretch j n b → a ≡ b }
    ensures opening { (j : JournalData) (a b : Option ℕ) → IsOpenFault j a → IsOpenFault j b → a ≡ b }
    ensures machine { (j : JournalData) (s t : State) → IsOpened j s → IsOpened j t → s ≡ t }
{}
