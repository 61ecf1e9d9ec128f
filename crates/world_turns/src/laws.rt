//! What a recorder's calls are in a network, as the contracts of functions that do nothing.

ghost use Rattle.std.specs.Prelude.{◌≡◌, ◌<◌, ◌^◌, ◌++◌, ℕ, List, [], Result, Some, slice_get, slice_set};
ghost use Rattle.avm_num.specs.Bytes.{IsBytes};
ghost use Rattle.avm_model.specs.Head.{HeadData};
ghost use Rattle.avm_model.specs.Machine.{State};
ghost use Rattle.avm_model.specs.Memory.{RamState};
ghost use Rattle.avm_outside.specs.Outlet.{Piece};
ghost use Rattle.honest_model.specs.KeepPages.{IsHeader};
ghost use Rattle.honest_model.specs.Keeps.{IsOpened};
ghost use Rattle.journal_model.specs.Fits.{FitsJournal};
ghost use Rattle.journal_model.specs.Journal.{Is, JournalData, journal_of};
ghost use Rattle.journal_model.specs.Part.{Part};
ghost use Rattle.journal_model.specs.Spelling.{front_bytes};
ghost use Rattle.journal_spelling.specs.Spelled.{HasSpelling};
ghost use Rattle.jrnl_store.specs.declared.fault.Stop.{Stop};
ghost use Rattle.life_model.specs.Life.{opened};
ghost use Rattle.record_kept.specs.declared.kept.KeptRow.{KeptRow};
ghost use Rattle.record_model.specs.Recording.{Recording};
ghost use Rattle.record_model.specs.Released.{Sender};
ghost use Rattle.record_model.specs.Turn.{Gift};
ghost use Rattle.record_parts.specs.Ends.{Faults};
ghost use Rattle.record_parts.specs.declared.answers.Sealed.{Sealed};
ghost use Rattle.record_parts.specs.declared.answers.Turn.{Turn};
ghost use Rattle.record_store.specs.Saving.{StandsWith};
ghost use Rattle.record_turn.specs.Keeping.{Aside, MarksTell};
ghost use Rattle.record_turn.specs.Leaves.{Seals};
ghost use Rattle.recorder.specs.Turns.{Planned};
ghost use Rattle.truth_laws.specs.Truth.{IsTrue};
ghost use Rattle.world_laws.specs.Events.{SignsFor};
ghost use Rattle.world_laws.specs.Network.{IsSchedule, Network, Station};
ghost use Rattle.world_parts.specs.Holding.{with_piece};
ghost use Rattle.world_turns.specs.Comes.{Comes, GivesReleased, Turns, leaves_all};

/// Happenings at a station of a network are a schedule of it.
pub fn comings_are_schedules()
    ensures { (n : Network) (k : ℕ) (s : Station) (t : Recording) (pieces : List Piece) → slice_get n.stations k ≡ Some s → Comes n.released s.who s.recording t pieces
        → IsSchedule n (record { stations = slice_set n.stations k (record { who = s.who; recording = t }); released = n.released ++ pieces }) }
{}

/// A turn and a seal of a recorder, whatever stops them, are happenings at its station, where the feed gives no packet but one that
/// was released, and an outlet keeps what it had where a piece fails. So is a crash amid them, of which the node is opened on the journal
/// before the call, or on that one with the batch in flight: nothing is released then.
pub fn turns_come()
    ensures turn { (pool : List Piece) (who : Sender) (g : Gift) (value : ℕ) (r : Recording) (a : HeadData) (aside after : Aside) (batch : List Part) (machine : State) (f : Faults) (old new : List (ℕ × List ℕ)) (result : Result Turn Stop) (next : JournalData) (flight : List Part)
        → FitsJournal r.journal → IsHeader r.journal.header a → IsTrue r → MarksTell r.journal r.batch aside.ram → GivesReleased pool g → SignsFor who (record { journal = next; batch = batch; machine = machine })
        → Planned with_piece leaves_all who g value r aside after batch machine f old new result next flight
        → Turns pool who r (record { journal = next; batch = batch; machine = machine }) old new }
    ensures turn_crash { (pool : List Piece) (who : Sender) (g : Gift) (value : ℕ) (r : Recording) (a : HeadData) (aside after : Aside) (batch : List Part) (machine : State) (f : Faults) (old new : List (ℕ × List ℕ)) (result : Result Turn Stop) (next : JournalData) (flight : List Part) (image : List ℕ) (m : JournalData) (to : State)
        → FitsJournal r.journal → IsHeader r.journal.header a → IsTrue r → MarksTell r.journal r.batch aside.ram → GivesReleased pool g
        → Planned with_piece leaves_all who g value r aside after batch machine f old new result next flight
        → StandsWith r.journal flight image → journal_of image ≡ Is m → IsOpened m to → Comes pool who r (opened m to) [] }
    ensures seal { (pool : List Piece) (who : Sender) (r : Recording) (rows : List KeptRow) (batch : List Part) (f : Faults) (old new : List (ℕ × List ℕ)) (result : Result Sealed Stop) (next : JournalData) (flight : List Part)
        → SignsFor who (record { journal = next; batch = batch; machine = r.machine })
        → Seals with_piece leaves_all who r rows batch f old new result next flight
        → Turns pool who r (record { journal = next; batch = batch; machine = r.machine }) old new }
    ensures seal_crash { (pool : List Piece) (who : Sender) (r : Recording) (rows : List KeptRow) (batch : List Part) (f : Faults) (old new : List (ℕ × List ℕ)) (result : Result Sealed Stop) (next : JournalData) (flight : List Part) (image : List ℕ) (m : JournalData) (to : State)
        → Seals with_piece leaves_all who r rows batch f old new result next flight
        → StandsWith r.journal flight image → journal_of image ≡ Is m → IsOpened m to → Comes pool who r (opened m to) [] }
{}

/// Whoever has a node's id signs for a journal that bytes spell and that carries no entry: each of its entries has a spelling in a
/// packet.
pub fn spelled_journals_sign()
    ensures { (who : Sender) (r : Recording) → who.own ≡ r.machine.devices.own → who.own < 2 ^ 32 → r.journal.header.carried ≡ [] → HasSpelling r.journal → IsBytes (front_bytes r.journal) → SignsFor who r }
{}
