//! What the definitions of journals say, as the contracts of functions that do nothing.

ghost use Rattle.std.specs.Prelude.{◌≡◌, ℕ, ◌==◌, ◌∷◌, ◌++◌, List, [], false, true, length, Option, Some, None, slice_get};
ghost use Rattle.std.specs.Int.{w32};
ghost use Rattle.avm_num.specs.Lists.{be, sized_bytes};
ghost use Rattle.avm_model.specs.Entries.{numbered};
ghost use Rattle.avm_model.specs.Frame.{FrameData};
ghost use Rattle.journal_model.specs.Fits.{FitsJournal};
ghost use Rattle.journal_model.specs.Part.{Part, entry};
ghost use Rattle.journal_model.specs.Header.{HeaderData, header_at};
ghost use Rattle.journal_model.specs.Journal.{JournalData, parts, entries, with_record, joined, items_at, HasRoom, ended, Damaged, Is, journal_of, IsFront, next_number, last_hash, used};
ghost use Rattle.journal_model.specs.Standing.{SignedData, standing, signed_from, signed_items, LeavesFrom, is_sealed, prior_hash};

/// The bytes of a header are the front of the journal that has no record yet.
pub fn headers_are_fronts()
    ensures { (bytes : List ℕ) (h : HeaderData) (rest : List ℕ) → header_at bytes ≡ Some (h, rest) → (front : List ℕ) × (bytes ≡ front ++ rest) × IsFront (record { header = h; records = []; mark = None }) front }
{}

/// A gate behind the front of a journal: where it is closed, the journal has ended, and what stands behind is no record.
/// Where it is open and a record stands behind it that the journal can have, reading goes on behind that record. Where it is
/// open and no such record stands there, or the journal ended by a mark, the bytes are damaged at that gate.
pub fn gates_are_read()
    ensures closed { (j : JournalData) (front : List ℕ) (gate : ℕ) (rest : List ℕ) → IsFront j front → (gate == 1) ≡ false → journal_of (front ++ gate ∷ rest) ≡ ended j }
    ensures open { (j next : JournalData) (front items : List ℕ) → IsFront j front → joined j items ≡ Some next → j.mark ≡ None → HasRoom (length front) items → IsFront next (front ++ 1 ∷ sized_bytes (be w32) items) }
    ensures lacking { (j : JournalData) (front rest : List ℕ) → IsFront j front → items_at (length front) rest ≡ None → journal_of (front ++ 1 ∷ rest) ≡ Damaged (length front) }
    ensures refused { (j : JournalData) (front items : List ℕ) (gate : ℕ) (rest : List ℕ) → IsFront j front → joined j items ≡ None → HasRoom (length front) items → journal_of (front ++ 1 ∷ (sized_bytes (be w32) items ++ gate ∷ rest)) ≡ Damaged (length front) }
    ensures marked { (j : JournalData) (front : List ℕ) (n : ℕ) (rest : List ℕ) → IsFront j front → j.mark ≡ Some n → journal_of (front ++ 1 ∷ rest) ≡ Damaged (length front) }
{}

/// Going over the parts once tells where a journal stands: the next entry's number, the last entry's hash and the one before
/// it, how many leaves are used, and whether the last item is a seal.
pub fn standing_tells_all()
    ensures next { (j : JournalData) → (standing j).next ≡ next_number j }
    ensures hash { (j : JournalData) → (standing j).hash ≡ last_hash j }
    ensures prior { (j : JournalData) → (standing j).prior ≡ prior_hash j }
    ensures used { (j : JournalData) → (standing j).used ≡ used j }
    ensures sealed { (j : JournalData) → (standing j).sealed ≡ is_sealed j }
{}

/// The leaves of the signing items run on from the header's, so two items never have one leaf. A record more leaves the
/// signing items so far as they are, with their leaves, and its own stand behind them.
pub fn leaves_differ()
    ensures run_on { (j : JournalData) → LeavesFrom j.header.leaves (signed_items j) }
    ensures apart { (j : JournalData) (i k : ℕ) (a b : SignedData) → slice_get (signed_items j) i ≡ Some a → slice_get (signed_items j) k ≡ Some b → a.leaf ≡ b.leaf → i ≡ k }
    ensures more { (j : JournalData) (ps : List Part) → signed_items (with_record j ps) ≡ signed_items j ++ signed_from (standing j) ps }
{}

/// What bytes stand for fits together: its parts follow one another from the header's number on, and the leaves suffice. So
/// its first part is an entry, and the entries' numbers run on.
pub fn journals_fit()
    ensures fits { (bytes : List ℕ) (j : JournalData) → journal_of bytes ≡ Is j → FitsJournal j }
    ensures begins { (j : JournalData) → FitsJournal j → (f : FrameData) × (ps : List Part) × (parts j ≡ entry f ∷ ps) }
    ensures numbers { (j : JournalData) → FitsJournal j → numbered j.header.first (entries j) ≡ true }
{}
