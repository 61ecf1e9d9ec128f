//! What the definitions of bases and spares say, as the contracts of functions that do nothing.

ghost use Rattle.std.specs.Prelude.{◌≡◌, ℕ, ◌∷◌, ◌++◌, List, [], length, Option, Some, None};
ghost use Rattle.std.specs.Int.{w32};
ghost use Rattle.avm_num.specs.Lists.{be, sized_bytes};
ghost use Rattle.avm_model.specs.Content.{snap, content_at};
ghost use Rattle.avm_model.specs.Frame.{FrameData};
ghost use Rattle.avm_model.specs.Machine.{State};
ghost use Rattle.journal_model.specs.Part.{Part, entry};
ghost use Rattle.journal_model.specs.Fits.{FitsJournal};
ghost use Rattle.journal_model.specs.Journal.{JournalData, parts, joined, ended, Is, HasRoom, IsFront, next_number, last_hash, used};
ghost use Rattle.honest_model.specs.Honest.{header_state, IsHonest, Leads};
ghost use Rattle.base_model.specs.Base.{Moves, MovedState, moved, moved_at, base_bytes};
ghost use Rattle.base_model.specs.Spare.{first_byte, IsFree, IsJournal, IsRetired, IsSafe, TogetherOnly};
ghost use Rattle.base_model.specs.History.{AreSafe, disks, IsHistory, OneAlways, IsUnused, IsMarkless, CutAt, Retains};

use avm_outside::Disk;

/// A journal that is moved at a SNAP entry has the same last hash, the same next number and as many used leaves as before.
/// Where the journal leads from its header's state to some state, the moved one leads from the state behind that entry to the
/// same state, if the head of that state tells it whole; and so it is honest.
pub fn moved_is_honest()
    ensures hash { (j : JournalData) (n : ℕ) (s : MovedState) → last_hash (moved j n s) ≡ last_hash j }
    ensures used { (j : JournalData) (n : ℕ) (s : MovedState) → used (moved j n s) ≡ used j }
    ensures next { (j : JournalData) (n : ℕ) (s : MovedState) (before behind : List Part) (f : FrameData) → FitsJournal j → parts j ≡ before ++ entry f ∷ behind → f.seq ≡ n → next_number (moved j n s) ≡ next_number j }
    ensures leads { (j : JournalData) (n : ℕ) (from to : State) (before behind : List Part) (f : FrameData) (count : ℕ) (r : List ℕ) → FitsJournal j → Leads from (parts j) to → parts j ≡ before ++ entry f ∷ behind → f.seq ≡ n → content_at f.kind f.content ≡ Some (snap count r) → Moves j n from to before f }
    ensures honest { (j : JournalData) (n : ℕ) (at to : State) → header_state (moved_at j n at).header ≡ Some at → Leads at (parts (moved_at j n at)) to → IsHonest (moved_at j n at) }
{}

/// A free spare is no journal, and a base begins with the byte that no free spare has in front.
pub fn free_is_no_journal()
    ensures free { (c : List ℕ) → IsFree c → IsJournal c → ⊥ }
    ensures base { (j : JournalData) (n : ℕ) (s : MovedState) → (rest : List ℕ) × (base_bytes j n s ≡ first_byte ∷ rest) }
{}

/// A mark that is written behind the front of a journal retires it.
pub fn marks_retire()
    ensures { (j : JournalData) (n : ℕ) (front items rest c : List ℕ) → IsFront j front → ended j ≡ Is j → j.mark ≡ None → joined j items ≡ Some (record j { mark = Some n }) → HasRoom (length front) items → c ≡ front ++ 1 ∷ ((sized_bytes (be w32) items ++ 0 ∷ []) ++ rest) → IsRetired c }
{}

/// Over any list of crashes, turns, seals and retains, whole or cut, of a store and a spare that is free at first: at each
/// state, where an image of the spare is a journal, the image of the store has the mark. So at most one of the two opens.
pub fn at_most_one_opens<D: Disk, E: Disk>()
    ensures { (both : D × E) (later : List (D × E)) → AreSafe (disks D.may_leave E.may_leave both) → IsHistory D.may_leave E.may_leave both later → OneAlways D.may_leave E.may_leave both later }
{}

/// A run of calls that moves a store without a mark to a spare is an event of a history, at its end and cut at any moment: while the
/// spare is prepared, while the mark is written, and while the spare is activated.
pub fn retains_are_events<D: Disk, E: Disk>()
    ensures whole { (store store_new : D) (spare spare_new : E) → IsMarkless (D.may_leave store) → (IsUnused (disks D.may_leave E.may_leave (store, spare)) → TogetherOnly D.moment D.left_since D.may_leave E.moment E.left_since E.may_leave store store_new spare spare_new IsSafe)
        → Retains (disks D.may_leave E.may_leave (store, spare)) (disks D.may_leave E.may_leave (store_new, spare_new)) }
    ensures cut_first { (store store_new : D) (spare spare_new : E) → IsMarkless (D.may_leave store) → (t : IsUnused (disks D.may_leave E.may_leave (store, spare)) → TogetherOnly D.moment D.left_since D.may_leave E.moment E.left_since E.may_leave store store_new spare spare_new IsSafe)
        → (c e : List ℕ) → ((u : IsUnused (disks D.may_leave E.may_leave (store, spare))) → D.may_leave store c × E.left_since (t u).between (E.moment spare) e) → Retains (disks D.may_leave E.may_leave (store, spare)) (CutAt c e) }
    ensures cut_second { (store store_new : D) (spare spare_new : E) → IsMarkless (D.may_leave store) → (t : IsUnused (disks D.may_leave E.may_leave (store, spare)) → TogetherOnly D.moment D.left_since D.may_leave E.moment E.left_since E.may_leave store store_new spare spare_new IsSafe)
        → (c e : List ℕ) → ((u : IsUnused (disks D.may_leave E.may_leave (store, spare))) → D.left_since store_new (D.moment store) c × E.may_leave (t u).between e) → Retains (disks D.may_leave E.may_leave (store, spare)) (CutAt c e) }
    ensures cut_third { (store store_new : D) (spare spare_new : E) → IsMarkless (D.may_leave store) → (t : IsUnused (disks D.may_leave E.may_leave (store, spare)) → TogetherOnly D.moment D.left_since D.may_leave E.moment E.left_since E.may_leave store store_new spare spare_new IsSafe)
        → (c e : List ℕ) → ((u : IsUnused (disks D.may_leave E.may_leave (store, spare))) → D.may_leave store_new c × E.left_since spare_new (E.moment (t u).between) e) → Retains (disks D.may_leave E.may_leave (store, spare)) (CutAt c e) }
{}
