//! What the definitions of honest journals say, as the contracts of functions that do nothing.

ghost use Rattle.std.specs.Prelude.{◌≡◌, ℕ, ◌++◌, ◌∷◌, [], List, Option, Some, None, length, ◌*◌, Bool, true};
ghost use Rattle.avm_model.specs.Content.{content_at, snap};
ghost use Rattle.avm_model.specs.Entries.{numbered};
ghost use Rattle.avm_model.specs.Frame.{FrameData};
ghost use Rattle.avm_model.specs.Machine.{State};
ghost use Rattle.avm_model.specs.Memory.{RamState};
ghost use Rattle.avm_model.specs.PageMarks.{MarksPages};
ghost use Rattle.avm_model.specs.Reference.{entries_of, timed};
ghost use Rattle.avm_model.specs.Rerun.{Replays, Stands, after, start};
ghost use Rattle.honest_model.specs.Honest.{Exports, HasFirst, IsHonest, Leads, header_state, log_of};
ghost use Rattle.honest_model.specs.KeepPages.{IsKeptRam, KeepsMarked, KeepsPages, ram_with};
ghost use Rattle.honest_model.specs.Keeps.{HasTrueKeeps, IsOpenFault, IsOpened};
ghost use Rattle.journal_model.specs.Header.{HeaderData};
ghost use Rattle.journal_model.specs.Journal.{JournalData, entries, parts};
ghost use Rattle.journal_model.specs.Part.{KeepData, PageData, Part, entry, keep, pages_of};

/// A journal is honest, without a fault and whole, exactly where its parts lead from its header's state to some state.
pub fn honest_as_leading()
    ensures leads { (j : JournalData) (s : State) → IsHonest j → header_state j.header ≡ Some s → (t : State) × Leads s (parts j) t }
    ensures honest { (j : JournalData) (s t : State) → header_state j.header ≡ Some s → Leads s (parts j) t → IsHonest j }
{}

/// Opening an honest journal whose keeps are all true, from its last good keep on, finds no fault, and gives the machine
/// that all its entries give from its header.
pub fn opened_as_replayed()
    ensures fault { (j : JournalData) (fault : Option ℕ) → IsHonest j → HasTrueKeeps j → numbered j.header.first (entries j) ≡ true → IsOpenFault j fault → fault ≡ None }
    ensures machine { (j : JournalData) (from s : State) → IsHonest j → HasTrueKeeps j → header_state j.header ≡ Some from → IsOpened j s → s ≡ (after timed from (log_of (parts j))).state }
    ensures leads { (j : JournalData) (from to s : State) → header_state j.header ≡ Some from → Leads from (parts j) to → HasTrueKeeps j → IsOpened j s → s ≡ to }
{}

/// From each SNAP entry on, what replays whole replays from a state whose root and count the entry has, and each front of
/// the entries behind it does: so an exported segment is one that an audit accepts.
pub fn exports_replay()
    ensures snapshot { (from to : State) (before behind : List Part) (f : FrameData) (count : ℕ) (r : List ℕ) → HasFirst before → Leads from (before ++ entry f ∷ behind) to → content_at f.kind f.content ≡ Some (snap count r) → Exports from before f behind to }
    ensures fronts { (at to : State) (a b : List FrameData) → Stands timed at (entries_of (a ++ b)) (start to) → Replays timed at (entries_of a) }
{}

/// Marks tell which pages a keep needs: where each page without a mark is as the header and the keeps so far have it, the
/// marked pages are all that differ. What marks the pages that it changes keeps this, and a keep renews it without marks.
pub fn marks_tell_pages()
    ensures kept { (h : HeaderData) (before : List Part) (old new : RamState) → IsKeptRam h before old → MarksPages old new → IsKeptRam h before new }
    ensures pages { (h : HeaderData) (before : List Part) (s : State) (dirty : List Bool) (pages : List PageData) → IsKeptRam h before (ram_with s dirty) → KeepsMarked s dirty pages → KeepsPages h before s pages }
    ensures behind { (h : HeaderData) (before : List Part) (s : State) (dirty : List Bool) (k : KeepData) → KeepsPages h before s (pages_of k) → length s.ram ≡ 4096 * length dirty → IsKeptRam h (before ++ keep k ∷ []) (ram_with s dirty) }
{}
