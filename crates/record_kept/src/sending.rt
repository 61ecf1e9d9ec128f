//! The ticket of a message that a step sent.

ghost use Rattle.journal_model.specs.Journal.{JournalData, with_record};
ghost use Rattle.record_batch.specs.Batch.{BatchData};
ghost use Rattle.journal_model.specs.Standing.{behind, signed_from, standing};
ghost use Rattle.jrnl_store.specs.Kept.{ticket_view};
ghost use Rattle.record_model.specs.Standing.{FitAll};
ghost use Rattle.record_parts.specs.Outs.{AreQuiet, first_of, outs_made, with_made};
ghost use Rattle.std.specs.Prelude.{◌≡◌, ◌<◌, ℕ, List, IfSome, fold, option_map};
ghost use Rattle.avm_model.specs.Machine.{State};
ghost use Rattle.record_kept.specs.Tickets.{AreKeptOf, AreLow};

use crate::kept::Kept;
use guest_machine::Outs;
use jrnl_store::Ticket;

/// Keeps the ticket of the message that a step sent, whose batch is saved.
pub fn keep_outs(kept: &mut Kept, outs: &Outs, ticket: Option<Ticket>)
    ensures low { (most : ℕ) → IfSome ticket (λ t. (ticket_view t).leaf < most) → AreLow most kept.old.rows → AreLow most kept.new.rows }
    ensures kept { (j : JournalData) (b : BatchData) (s : State) (pages : List ℕ) → b.next ≡ (fold behind (standing j) b.parts).next → AreQuiet b.parts → FitAll (outs_made s outs.now)
        → option_map ticket_view ticket ≡ first_of (signed_from (standing j) (with_made b s pages (outs_made s outs.now)).parts) → AreKeptOf kept.old.rows j → AreKeptOf kept.new.rows (with_record j (with_made b s pages (outs_made s outs.now)).parts) }
{
    let Some(sent) = outs.sent else {
        return;
    };
    let Some(ticket) = ticket else {
        return;
    };
    kept.add_send(sent.peer, sent.number, ticket);
}
