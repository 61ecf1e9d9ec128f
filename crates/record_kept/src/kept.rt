//! The tickets that are kept so that packets can be sent again.

ghost use Rattle.journal_model.specs.Header.{CarriedData};
ghost use Rattle.journal_model.specs.Journal.{JournalData};
ghost use Rattle.jrnl_part.specs.Carriage.{carried_signed};
ghost use Rattle.jrnl_store.specs.Kept.{ticket_view};
ghost use Rattle.record_model.specs.Released.{read, sender_of};
ghost use Rattle.std.specs.Prelude.{◌≡◌, ℕ, ◌<◌, IfSome, ◌++◌, ◌∷◌, [], List, Option, Some, None, option_map};
ghost use Rattle.avm_model.specs.Content.{recv, send};
ghost use Rattle.avm_model.specs.Packet.{data_at};
ghost use Rattle.record_model.specs.Released.{outstanding as outstanding_lem};
ghost use Rattle.record_kept.specs.Tickets.{AreLow, AreKept, AreKeptOf, recv_at, sent_at, sent_view};

use guest_machine::Machine;
use jrnl_store::Ticket;

/// The last message that was sent to a peer.
#[derive(Clone, Copy)]
pub struct KeptSend {
    pub ticket: Ticket,
    pub number: u64,
}

/// What is kept for a peer: the ticket of the last message from it, and the last message to it.
#[derive(Clone, Copy)]
pub struct KeptRow {
    pub recv: Option<Ticket>,
    pub sent: Option<KeptSend>,
}

/// What is kept for each peer, by its id.
#[derive(Drop)]
pub struct Kept {
    rows: [KeptRow; 16],
}

impl Kept {
    /// Nothing is kept.
    pub fn new() -> Kept
        ensures kept { AreKept result.rows [] }
        ensures low { (most : ℕ) → AreLow most result.rows }
    {
        Kept {
            rows: [KeptRow {
                recv: None,
                sent: None,
            }; 16],
        }
    }

    /// Keeps the ticket of a message that came from a peer.
    pub fn add_recv(&mut self, peer: u32, ticket: Ticket)
        ensures low { (most : ℕ) → (ticket_view ticket).leaf < most → AreLow most self.old.rows → AreLow most self.new.rows }
        ensures kept { (es : List CarriedData) (e : CarriedData) (count : ℕ) (packet : List ℕ) → read e ≡ Some (recv count packet) → sender_of (data_at packet) ≡ peer → carried_signed e ≡ ticket_view ticket → AreKept self.old.rows es → AreKept self.new.rows (es ++ e ∷ []) }
    {
        if peer < 16 {
            self.rows[peer as usize].recv = Some(ticket);
        }
    }

    /// Keeps the ticket and the number of a message that was sent to a peer.
    pub fn add_send(&mut self, peer: u32, number: u64, ticket: Ticket)
        ensures low { (most : ℕ) → (ticket_view ticket).leaf < most → AreLow most self.old.rows → AreLow most self.new.rows }
        ensures kept { (es : List CarriedData) (e : CarriedData) (count : ℕ) (payload : List ℕ) → read e ≡ Some (send count peer number payload) → carried_signed e ≡ ticket_view ticket → AreKept self.old.rows es → AreKept self.new.rows (es ++ e ∷ []) }
    {
        if peer < 16 {
            self.rows[peer as usize].sent = Some(KeptSend { ticket, number });
        }
    }

    /// The ticket of the last message from a peer.
    pub fn recv_from(&self, peer: u32) -> Option<Ticket>
        ensures value { peer < 16 → option_map ticket_view result ≡ recv_at self.now.rows peer }
        ensures low { (most : ℕ) → AreLow most self.now.rows → IfSome result (λ t. (ticket_view t).leaf < most) }
    {
        if peer < 16 {
            self.rows[peer as usize].recv
        } else {
            None
        }
    }

    /// The last message to a peer.
    fn sent_to(&self, peer: u32) -> Option<KeptSend>
        ensures value { peer < 16 → option_map sent_view result ≡ sent_at self.now.rows peer }
        ensures low { (most : ℕ) → AreLow most self.now.rows → IfSome result (λ s. (ticket_view s.ticket).leaf < most) }
    {
        if peer < 16 {
            self.rows[peer as usize].sent
        } else {
            None
        }
    }

    /// The ticket of the message to a peer that isn't acknowledged.
    pub fn outstanding(&self, machine: &Machine, peer: u32) -> Option<Ticket>
        ensures low { (most : ℕ) → AreLow most self.now.rows → IfSome result (λ t. (ticket_view t).leaf < most) }
        ensures value { (j : JournalData) → AreKeptOf self.now.rows j → option_map ticket_view result ≡ option_map carried_signed (outstanding_lem j machine.now.state peer) }
    {
        machine.bounds();
        let Some(row) = machine.devices().row(peer) else {
            return None;
        };
        if row.sent == row.acked {
            return None;
        }
        let Some(sent) = self.sent_to(peer) else {
            return None;
        };
        if sent.number == row.sent {
            Some(sent.ticket)
        } else {
            None
        }
    }
}
