//! What is sought for a peer among a journal's signed entries.

ghost use Rattle.std.specs.Prelude.{◌≡◌};
ghost use Rattle.log_entry.specs.Views.{content_view};
ghost use Rattle.base_carried.specs.Rows.{has_number, is_wanted as is_wanted_of, noted, row_for};

use avm_model::Peer;
use log_entry::Content;
use record_kept::sender;

/// Of a peer: its id; the number of the message to it that isn't acknowledged, where there is one; whether a message came from it;
/// and the numbers of the entries that were found so far: the last SEND with that number, and the last RECV.
#[derive(Clone, Copy)]
pub struct Row {
    pub peer: u32,
    pub number: Option<u64>,
    pub received: bool,
    pub send: Option<u64>,
    pub recv: Option<u64>,
}

/// Whether a number is the wanted one.
fn is_wanted(wanted: Option<u64>, number: u64) -> bool
    ensures { result ≡ is_wanted_of wanted number }
{
    match wanted {
        Some(n) => n == number,
        None => false,
    }
}

/// The number of the message that isn't acknowledged.
fn unacknowledged(peer: &Peer) -> Option<u64>
    ensures { result ≡ (row_for peer.now).number }
{
    if peer.sent == peer.acked {
        None
    } else {
        Some(peer.sent)
    }
}

impl Row {
    /// Nothing is found yet.
    pub fn new(peer: &Peer) -> Row
        ensures { result ≡ row_for peer.now }
    {
        Row {
            peer: peer.id as u32,
            number: unacknowledged(peer),
            received: peer.received != 0,
            send: None,
            recv: None,
        }
    }

    /// With the last SEND so far.
    fn with_send(self, seq: u64) -> Row
        ensures { result ≡ record self { send = Some seq } }
    {
        Row {
            peer: self.peer,
            number: self.number,
            received: self.received,
            send: Some(seq),
            recv: self.recv,
        }
    }

    /// With the last RECV so far.
    fn with_recv(self, seq: u64) -> Row
        ensures { result ≡ record self { recv = Some seq } }
    {
        Row {
            peer: self.peer,
            number: self.number,
            received: self.received,
            send: self.send,
            recv: Some(seq),
        }
    }

    /// With the next entry, which has this number and this content.
    pub fn with(self, seq: u64, content: Content<'_>) -> Row
        ensures { result ≡ noted seq (content_view content.entry) self }
    {
        match content {
            Content::Send {
                count: _,
                peer,
                number,
                payload: _,
            } => {
                if peer == self.peer && is_wanted(self.number, number) {
                    self.with_send(seq)
                } else {
                    self
                }
            }
            Content::Recv { count: _, packet } => {
                if self.received && sender(packet) == self.peer {
                    self.with_recv(seq)
                } else {
                    self
                }
            }
            _ => self,
        }
    }

    /// Whether the entry of this number was found.
    pub fn has(&self, seq: u64) -> bool
        ensures { result ≡ has_number seq self.now }
    {
        is_wanted(self.send, seq) || is_wanted(self.recv, seq)
    }
}
