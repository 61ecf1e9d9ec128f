//! What the spelling of a journal says, as the contract of a function that does nothing.

ghost use Rattle.std.specs.Prelude.{◌≡◌, ℕ, ◌==◌, ◌∷◌, ◌++◌, List, false};
ghost use Rattle.avm_num.specs.Bytes.{IsBytes};
ghost use Rattle.journal_model.specs.Journal.{JournalData, ended, Is, journal_of, IsFront};
ghost use Rattle.journal_model.specs.Spelling.{front_bytes};
ghost use Rattle.journal_spelling.specs.Spelled.{HasSpelling};

/// Bytes that stand for a journal are its spelling up to a closed gate, and it has one. Whatever stands at that gate, if it is
/// closed, and behind it, the bytes stand for that journal. So what stands before the last gate of a journal is one list of bytes.
pub fn spelled_once()
    ensures spelled { (c : List ℕ) (j : JournalData) → IsBytes c → journal_of c ≡ Is j → HasSpelling j × (gate : ℕ) × (rest : List ℕ) × (c ≡ front_bytes j ++ gate ∷ rest) × ((gate == 1) ≡ false) }
    ensures again { (j : JournalData) (gate : ℕ) (rest : List ℕ) → HasSpelling j → (gate == 1) ≡ false → journal_of (front_bytes j ++ gate ∷ rest) ≡ Is j }
    ensures stands { (j : JournalData) → HasSpelling j → IsFront j (front_bytes j) }
    ensures front { (j : JournalData) (front : List ℕ) → IsBytes front → IsFront j front → ended j ≡ Is j → front ≡ front_bytes j }
{}
