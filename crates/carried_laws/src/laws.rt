//! The entries that a base carries, as the contract of a function that does nothing.

ghost use Rattle.std.specs.Prelude.{◌≡◌, ℕ, ◌+◌, ◌<◌, ◌≤◌, IsTrue, length, true};
ghost use Rattle.std.specs.List.{AllByRecursion};
ghost use Rattle.avm_model.specs.Bounds.{are_rows};
ghost use Rattle.avm_model.specs.Machine.{State};
ghost use Rattle.base_model.specs.Base.{before_entry, carried_of};
ghost use Rattle.journal_model.specs.Header.{ascend};
ghost use Rattle.journal_model.specs.Journal.{JournalData, entries, has_snap, parts};
ghost use Rattle.journal_model.specs.Part.{signing};
ghost use Rattle.journal_spelling.specs.Spelled.{FitsCarried, HasSpelling};
ghost use Rattle.record_model.specs.Released.{signed_entries};

/// The signed entries of a journal have a spelling as carried entries, and so have those that a base carries. Their numbers ascend, up to
/// the base's first, and their leaves, up to those that the base begins with. There are at most 30.
pub fn carried_entries_fit()
    ensures signed { (j : JournalData) → HasSpelling j → AllByRecursion FitsCarried (signed_entries j) }
    ensures fit { (j : JournalData) (n : ℕ) (s : State) → HasSpelling j → AllByRecursion FitsCarried (carried_of j n s) }
    ensures ascends { (j : JournalData) (n : ℕ) (s : State) → HasSpelling j → has_snap n (entries j) ≡ true → ascend 0 0 n (j.header.leaves + signing (before_entry n (parts j))) (carried_of j n s) ≡ true }
    ensures few { (j : JournalData) (n : ℕ) (s : State) (own : ℕ) → HasSpelling j → has_snap n (entries j) ≡ true → own < 16 → IsTrue (are_rows own 0 s.devices.peers) → length (carried_of j n s) ≤ 30 }
{}
