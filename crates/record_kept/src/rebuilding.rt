//! The tickets of a journal that is opened.

ghost use Rattle.journal_model.specs.Header.{CarriedData};
ghost use Rattle.jrnl_part.specs.Carriage.{carried_signed};
ghost use Rattle.jrnl_store.specs.Kept.{ticket_view};
ghost use Rattle.avm_model.specs.Packet.{data_at};
ghost use Rattle.record_model.specs.Released.{sender_of};
ghost use Rattle.std.specs.Prelude.{◌<◌, ℕ, ◌≡◌, ◌++◌, ◌∷◌, [], List};
ghost use Rattle.log_entry.specs.Views.{frame_view, content_view};
ghost use Rattle.record_kept.specs.Tickets.{AreLow, AreKept, came_from as came_from_lem, sent_to as sent_to_lem};

use crate::kept::Kept;
use jrnl_store::Ticket;
use log_entry::{Content, Frame, content, data_body};

/// The sender of a DATA packet, or 0.
pub fn sender(bytes: &[u8]) -> u32
    ensures { result ≡ sender_of (data_at bytes.now) }
{
    match data_body(bytes) {
        Some(body) => body.from,
        None => 0,
    }
}

/// The peer that a message came from.
fn came_from(content: Content<'_>) -> Option<u32>
    ensures { result ≡ came_from_lem (content_view content.entry) }
{
    match content {
        Content::Recv { count: _, packet } => Some(sender(packet)),
        _ => None,
    }
}

/// The peer and the number of a message that was sent.
fn sent_to(content: Content<'_>) -> Option<(u32, u64)>
    ensures { result ≡ sent_to_lem (content_view content.entry) }
{
    match content {
        Content::Send {
            count: _,
            peer,
            number,
            payload: _,
        } => Some((peer, number)),
        _ => None,
    }
}

/// Keeps the ticket of a signed entry of the journal.
pub fn keep_entry(kept: &mut Kept, frame: &Frame<'_>, ticket: Ticket)
    ensures low { (most : ℕ) → (ticket_view ticket).leaf < most → AreLow most kept.old.rows → AreLow most kept.new.rows }
    ensures kept { (es : List CarriedData) (e : CarriedData) → e.frame ≡ frame_view frame.now → carried_signed e ≡ ticket_view ticket → AreKept kept.old.rows es → AreKept kept.new.rows (es ++ e ∷ []) }
{
    let Some(content) = content(frame) else {
        return;
    };
    if let Some(peer) = came_from(content) {
        kept.add_recv(peer, ticket);
        return;
    }
    let Some((peer, number)) = sent_to(content) else {
        return;
    };
    kept.add_send(peer, number, ticket);
}
