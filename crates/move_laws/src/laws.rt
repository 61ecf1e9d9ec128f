//! A journal that goes on from a SNAP entry, as the contract of a function that does nothing.

ghost use Rattle.std.specs.Prelude.{◌≡◌, ℕ, ◌*◌, ◌^◌, ◌<◌, ◌≤◌, length, true, None};
ghost use Rattle.avm_model.specs.Head.{head_bytes};
ghost use Rattle.avm_model.specs.HeadState.{data_of};
ghost use Rattle.avm_model.specs.Machine.{State};
ghost use Rattle.base_laws.specs.Moving.{CanMove};
ghost use Rattle.base_model.specs.Base.{moved_at, moved_state};
ghost use Rattle.export_model.specs.Exports.{IsStateAt};
ghost use Rattle.honest_model.specs.Keeps.{IsStretch};
ghost use Rattle.journal_model.specs.Fits.{FitsJournal};
ghost use Rattle.journal_model.specs.Journal.{JournalData, entries, has_snap, page_count_of};
ghost use Rattle.journal_model.specs.Part.{longest_head};
ghost use Rattle.journal_model.specs.Spelling.{front_bytes};
ghost use Rattle.journal_spelling.specs.Spelled.{HasSpelling};
ghost use Rattle.rebut_model.specs.Texts.{OfHead};

/// A SNAP entry has a number above 1. The state at an entry up to which a journal replays has as many pages as the header. Where that entry is a SNAP, its number and its
/// count are below 2^61, and its head tells the state whole, the journal can be moved there, if the base's last gate stands below
/// place 2^30.
pub fn snapshots_can_move()
    ensures pages { (j : JournalData) (n : ℕ) (s : State) → FitsJournal j → IsStretch j n None → IsStateAt j n s → length s.ram ≡ 4096 * page_count_of j }
    ensures later { (j : JournalData) (n : ℕ) → HasSpelling j → has_snap n (entries j) ≡ true → 1 < n }
    ensures moves { (j : JournalData) (n : ℕ) (s : State) → HasSpelling j → IsStretch j n None → IsStateAt j n s → has_snap n (entries j) ≡ true → n < 2 ^ 61 → s.count < 2 ^ 61 → OfHead s → length (head_bytes (data_of s)) ≤ longest_head
        → length (front_bytes (moved_at j n s)) < 2 ^ 30 → CanMove j n (moved_state j n s) }
{}
