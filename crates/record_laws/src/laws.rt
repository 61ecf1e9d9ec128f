//! What the definitions of recording say, as the contracts of functions that do nothing.

ghost use Rattle.std.specs.Prelude.{◌≡◌, ℕ, ◌++◌, List, Option, Some, None, is_some, false};
ghost use Rattle.avm_num.specs.Walk.{items_of};
ghost use Rattle.avm_model.specs.Head.{HeadData};
ghost use Rattle.avm_model.specs.Machine.{State};
ghost use Rattle.avm_model.specs.Offer.{Offer, taken};
ghost use Rattle.avm_model.specs.Reference.{Made, step_of};
ghost use Rattle.avm_outside.specs.Feed.{Agenda};
ghost use Rattle.avm_outside.specs.Outlet.{Piece};
ghost use Rattle.journal_model.specs.Journal.{JournalData, parts};
ghost use Rattle.journal_model.specs.Part.{Part, page_at};
ghost use Rattle.honest_model.specs.Keeps.{IsOpened};
ghost use Rattle.honest_model.specs.KeepPages.{IsHeader, KeepsPages, WritesHead};
ghost use Rattle.record_model.specs.Recorded.{Drop, Run, IsLast, IsRecorded, begun, next_act};
ghost use Rattle.record_laws.specs.Turns.{AreTurns};
ghost use Rattle.record_model.specs.Recording.{Recording, Act, Done, saved, with_step, with_input};
ghost use Rattle.record_model.specs.Released.{Sender};
ghost use Rattle.record_model.specs.Standing.{IsStanding, KeepsTrue, FitAll};
ghost use Rattle.record_model.specs.Turn.{Plan, Over, gift_of, AreMoves, OfScript, behind_turn};

/// Recording by turns is recording: a turn whose feed gives what an agenda says makes moves of the agenda's run, one for each
/// of its steps, else one, wherever turns begin and end. Where the feed gives the end, the run has ended.
pub fn turns_are_moves()
    ensures moves { (who : Sender) (pages : List ℕ) (j : JournalData) (b : List Part) (p : Agenda) (rel : List Piece) (dr : List Drop) (s at : State) (plan : Plan) (act : Act) (d : Done) → OfScript who pages j b p s plan act d at → AreMoves who j b p rel dr s at plan.quiet act d (behind_turn (is_some s.devices.clock) (gift_of s p) act p) }
    ensures ends { (s : State) (p : Agenda) → is_some s.devices.clock ≡ false → gift_of s p ≡ Over → next_act s p ≡ None }
{}

/// Turns one after another record: from an opened journal, over whatever turns, until the run has ended and is sealed, or until a
/// batch can't be saved.
pub fn turns_record()
    ensures { (who : Sender) (j : JournalData) (p : Agenda) (s : State) (ts : List Run) (end last : Run) → IsOpened j s → AreTurns who (begun j s p) ts end → IsLast who end last → IsRecorded who j p last }
{}

/// The keep that is written behind a SNAP is true, where its pages are those that changed since the keep before it; an input
/// and a saving leave all keeps true.
pub fn keeps_stay_true()
    ensures step { (r : Recording) (a : HeadData) (pages : List ℕ) (t : State) (os : List Made) → IsStanding r → KeepsTrue r → IsHeader r.journal.header a → step_of r.machine ≡ Some (t, os) → FitAll os → WritesHead t → KeepsPages r.journal.header (parts r.journal ++ r.batch) t (items_of page_at pages) → KeepsTrue (with_step r pages (t, os)).recording }
    ensures input { (r : Recording) (o : Offer) → KeepsTrue r → KeepsTrue (with_input r o (taken r.machine o)) }
    ensures saved { (r : Recording) → KeepsTrue r → KeepsTrue (saved r) }
{}
