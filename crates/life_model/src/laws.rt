//! What holds at every moment of a store's life, as the contract of a function that does nothing.

ghost use Rattle.std.specs.Prelude.{◌≡◌, ◌⊎◌, ℕ, List, None, map};
ghost use Rattle.avm_model.specs.Machine.{State};
ghost use Rattle.honest_model.specs.Honest.{IsHonest};
ghost use Rattle.honest_model.specs.Keeps.{HasTrueKeeps};
ghost use Rattle.journal_model.specs.Journal.{JournalData, Is, journal_of};
ghost use Rattle.journal_model.specs.Part.{Part};
ghost use Rattle.journal_model.specs.Standing.{SignedData, StandingData};
ghost use Rattle.record_model.specs.Released.{Sender, pieces_from};
ghost use Rattle.life_model.specs.Life.{Among, Comes, Event, IsKept, IsNew, Life, Place, left_at, new_life, told_from, with_batch};

use avm_outside::Disk;

/// Whatever happens to a store, a crash at any moment included: every image stands for the journal, or for it with the batch in
/// flight, or for it with a mark that is being written; machine and batch go on from there; what was released belongs to the
/// journal, or to entries before its first, which it has left behind when it moved to a base; what was signed is one of its
/// signing items, or of those before, at that item's leaf; and no leaf signs two pairs. An image without a mark is the journal,
/// or it with the batch in flight, and replays.
pub fn lives_are_kept<D: Disk, E: Disk>()
    ensures begins { (who : Sender) (place : Place D E) (j : JournalData) (s : State) → IsNew (left_at D.may_leave E.may_leave) place j s → IsKept (left_at D.may_leave E.may_leave) (new_life who place j s) }
    ensures event { (l m : Life (Place D E)) → IsKept (left_at D.may_leave E.may_leave) l → Event (left_at D.may_leave E.may_leave) l m → IsKept (left_at D.may_leave E.may_leave) m }
    ensures lives { (l m : Life (Place D E)) → IsKept (left_at D.may_leave E.may_leave) l → Comes (left_at D.may_leave E.may_leave) l m → IsKept (left_at D.may_leave E.may_leave) m }
    ensures once { (l : Life (Place D E)) (x y : SignedData) → IsKept (left_at D.may_leave E.may_leave) l → Among x l.signed → Among y l.signed → x.leaf ≡ y.leaf → x ≡ y }
    ensures opens { (l : Life (Place D E)) (j : JournalData) (c : List ℕ) → IsKept (left_at D.may_leave E.may_leave) l → left_at D.may_leave E.may_leave l.place c → journal_of c ≡ Is j → j.mark ≡ None → ((j ≡ l.recording.journal) ⊎ (j ≡ with_batch l.recording)) × IsHonest j × HasTrueKeeps j }
    ensures told { (who : Sender) (s : StandingData) (ps : List Part) → map (λ t. t.piece) (told_from who s ps) ≡ pieces_from who s ps }
{}
