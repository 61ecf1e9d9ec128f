//! What a recorder's calls are in the life of its store, as the contract of a function that does nothing.

ghost use Rattle.std.specs.Prelude.{◌≡◌, ℕ, List, None, Result};
ghost use Rattle.avm_model.specs.Head.{HeadData};
ghost use Rattle.avm_model.specs.Machine.{State};
ghost use Rattle.honest_model.specs.KeepPages.{IsHeader};
ghost use Rattle.honest_model.specs.Keeps.{IsOpened};
ghost use Rattle.journal_model.specs.Fits.{FitsJournal};
ghost use Rattle.journal_model.specs.Journal.{Is, JournalData, journal_of};
ghost use Rattle.journal_model.specs.Part.{Part};
ghost use Rattle.jrnl_store.specs.Kept.{Kept};
ghost use Rattle.jrnl_store.specs.Own.{IsOwn};
ghost use Rattle.jrnl_store.specs.declared.fault.Stop.{Stop};
ghost use Rattle.life_model.specs.Life.{CutTo, Event, IsKept, Life, OnStore, Place, left_at, opened};
ghost use Rattle.record_kept.specs.declared.kept.KeptRow.{KeptRow};
ghost use Rattle.record_model.specs.Turn.{Gift};
ghost use Rattle.record_parts.specs.Ends.{Faults};
ghost use Rattle.record_parts.specs.declared.answers.Sealed.{Sealed};
ghost use Rattle.record_parts.specs.declared.answers.Turn.{Turn};
ghost use Rattle.record_turn.specs.Keeping.{Aside, MarksTell};
ghost use Rattle.record_turn.specs.Leaves.{Leaves, Seals};
ghost use Rattle.recorder.specs.Turns.{Planned};
ghost use Rattle.turn_lives.specs.Lives.{LivesCut, LivesOn, WhereSaved};

use avm_outside::{Disk, Outlet};

/// What an opening, a turn and a seal leave are events in the life of the store, so that what holds of every life holds of them: what
/// is opened after any of them is the last journal that was acknowledged, or that one with the one batch in flight; what was
/// released belongs to the journal; and no leaf signs two pairs. It goes on behind each call, whatever
/// stopped it, and has released what the outlet got; and it goes on from each image that a crash leaves at a moment of the call.
pub fn turns_are_lived<D: Disk, E: Disk, O: Outlet>()
    ensures opens { (l : Life (Place D E)) (d : D) (k : Kept) (was c : List ℕ) (j : JournalData) (s : State) → left_at D.may_leave E.may_leave l.place c → journal_of c ≡ Is j → j.mark ≡ None → IsOpened j s → IsOwn k (D.may_leave d) was j → k.stop ≡ None
        → Event (left_at D.may_leave E.may_leave) l (record l { recording = opened j s; place = OnStore d; retiring = None }) }
    ensures turn { (l : Life (Place D E)) (a : HeadData) (old new : D) (n : Kept) (now : List ℕ) (g : Gift) (value : ℕ) (aside after : Aside) (batch : List Part) (machine : State) (f : Faults) (held got : O.Held) (result : Result Turn Stop)
        → IsKept (left_at D.may_leave E.may_leave) l → FitsJournal l.recording.journal → IsHeader l.recording.journal.header a → MarksTell l.recording.journal l.recording.batch aside.ram → WhereSaved result (n.stop ≡ None)
        → (h : Leaves D.moment D.left_since old new n (D.may_leave new) now l.recording.journal (Planned O.adding O.tearing l.who g value l.recording aside after batch machine f held got result))
        → LivesOn (left_at D.may_leave E.may_leave) O.adding O.tearing l (record { journal = h.next; batch = batch; machine = machine }) (OnStore new) held got
        × ((c : List ℕ) → D.left_since new (D.moment old) c → LivesCut (left_at D.may_leave E.may_leave) l (CutTo c)) }
    ensures seal { (l : Life (Place D E)) (a : HeadData) (old new : D) (n : Kept) (now : List ℕ) (rows : List KeptRow) (batch : List Part) (f : Faults) (held got : O.Held) (result : Result Sealed Stop)
        → IsKept (left_at D.may_leave E.may_leave) l → FitsJournal l.recording.journal → IsHeader l.recording.journal.header a → WhereSaved result (n.stop ≡ None)
        → (h : Leaves D.moment D.left_since old new n (D.may_leave new) now l.recording.journal (Seals O.adding O.tearing l.who l.recording rows batch f held got result))
        → LivesOn (left_at D.may_leave E.may_leave) O.adding O.tearing l (record { journal = h.next; batch = batch; machine = l.recording.machine }) (OnStore new) held got
        × ((c : List ℕ) → D.left_since new (D.moment old) c → LivesCut (left_at D.may_leave E.may_leave) l (CutTo c)) }
{}
