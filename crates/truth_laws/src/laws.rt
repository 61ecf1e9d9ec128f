//! What a recorder's calls leave, as the contract of a function that does nothing.

ghost use Rattle.std.specs.Prelude.{◌≡◌, ℕ, true, List, [], Result};
ghost use Rattle.avm_model.specs.Head.{HeadData};
ghost use Rattle.avm_model.specs.Machine.{State};
ghost use Rattle.avm_model.specs.Memory.{RamState};
ghost use Rattle.honest_model.specs.Honest.{IsHonest};
ghost use Rattle.honest_model.specs.KeepPages.{IsHeader, IsKeptRam};
ghost use Rattle.honest_model.specs.Keeps.{HasTrueKeeps, IsOpened};
ghost use Rattle.journal_model.specs.Fits.{FitsJournal};
ghost use Rattle.journal_model.specs.Journal.{JournalData, parts};
ghost use Rattle.journal_model.specs.Part.{Part};
ghost use Rattle.jrnl_store.specs.declared.fault.Stop.{Stop};
ghost use Rattle.life_model.specs.Life.{KeepsSnaps, opened};
ghost use Rattle.record_kept.specs.declared.kept.KeptRow.{KeptRow};
ghost use Rattle.record_model.specs.Recording.{Recording};
ghost use Rattle.record_model.specs.Released.{Sender};
ghost use Rattle.record_model.specs.Turn.{Gift};
ghost use Rattle.record_parts.specs.Ends.{Faults};
ghost use Rattle.record_parts.specs.declared.answers.Sealed.{Sealed};
ghost use Rattle.record_parts.specs.declared.answers.Turn.{Turn};
ghost use Rattle.record_turn.specs.Keeping.{Aside, MarksTell};
ghost use Rattle.record_turn.specs.Leaves.{Seals};
ghost use Rattle.recorder.specs.Turns.{Planned};
ghost use Rattle.truth_laws.specs.Truth.{IsTrue, StaysTrue};

use avm_outside::Outlet;

/// A turn and a seal, whatever stops them, leave a recording whose journal and batch replay whole and whose keeps are all true,
/// where they found one; and so is each image that a crash leaves at any moment of the call: it stands for the journal before
/// the call, or for that one with the batch in flight. An opening of a journal without a fault, whose keeps are all true, leaves
/// such a recording.
pub fn turns_keep_true<O: Outlet>()
    ensures opens { (j : JournalData) (s : State) → IsHonest j → HasTrueKeeps j → KeepsSnaps true (parts j) → IsOpened j s → IsTrue (opened j s) }
    ensures marks { (j : JournalData) (ram : RamState) → IsKeptRam j.header (parts j) ram → MarksTell j [] ram }
    ensures turn { (who : Sender) (g : Gift) (value : ℕ) (r : Recording) (a : HeadData) (aside after : Aside) (batch : List Part) (machine : State) (f : Faults) (old new : O.Held) (result : Result Turn Stop) (next : JournalData) (flight : List Part)
        → FitsJournal r.journal → IsHeader r.journal.header a → IsTrue r → MarksTell r.journal r.batch aside.ram
        → Planned O.adding O.tearing who g value r aside after batch machine f old new result next flight
        → StaysTrue r.journal flight (record { journal = next; batch = batch; machine = machine }) after.ram }
    ensures seal { (who : Sender) (r : Recording) (rows : List KeptRow) (ram : RamState) (batch : List Part) (f : Faults) (old new : O.Held) (result : Result Sealed Stop) (next : JournalData) (flight : List Part)
        → FitsJournal r.journal → IsTrue r → MarksTell r.journal r.batch ram
        → Seals O.adding O.tearing who r rows batch f old new result next flight
        → StaysTrue r.journal flight (record { journal = next; batch = batch; machine = r.machine }) ram }
{}
