// Whether a journal has bound what an authenticator says.
ghost use Rattle.std.specs.Prelude.{◌≡◌, ◌==◌, ◌&&◌, false, not, nat_eq, option_map};
ghost use Rattle.std.specs.List.{list_any};
ghost use Rattle.std.specs.Str.{bytes_eq};
ghost use Rattle.avm_auth.specs.Views.{auth_view};
ghost use Rattle.jrnl_store.specs.Items.{item_view};
ghost use Rattle.jrnl_store.specs.Kept.{kept, ticket_view};
ghost use Rattle.log_entry.specs.Views.{frame_view};
ghost use Rattle.rebut_pass.specs.Items.{listed};
ghost use Rattle.rebut_pass.specs.Looking.{sought_view, is_sought, opens as opens_lem, is_ticket, looked};

use avm_auth::Auth;
use avm_hash::Digest;
use jrnl_store::{Item, Journal, Ticket};
use log_chain::next;
use log_entry::Frame;

/// An entry's number, and the chain's hash there.
#[derive(Clone, Copy)]
pub struct Pair {
    pub seq: u64,
    pub hash: Digest,
}

/// A pair that is looked for among a journal's bound pairs.
#[derive(Clone, Copy)]
pub struct Sought {
    pub pair: Pair,
    pub later: bool,
    pub before: Digest,
    pub begun: bool,
    pub found: bool,
}

impl Sought {
    /// The pair of an authenticator, not found yet.
    pub fn new(journal: &Journal, auth: &Auth<'_>) -> Sought
        ensures { sought_view result ≡ record { seq = auth.now.seq; hash = auth.now.hash.0; later = not (nat_eq (kept journal.now).bounds.first 1); before = (kept journal.now).before; begun = false; found = false } }
    {
        Sought {
            pair: Pair {
                seq: auth.seq,
                hash: auth.hash,
            },
            later: journal.first() != 1,
            before: journal.before(),
            begun: false,
            found: false,
        }
    }

    fn is(&self, seq: u64, hash: &Digest) -> bool
        ensures { result ≡ is_sought (sought_view self.now) seq hash.now.0 }
    {
        seq == self.pair.seq && hash.0 == self.pair.hash.0
    }

    /// Whether it is the pair of the first entry, where an earlier journal may have bound that.
    fn opens(&self, frame: &Frame<'_>) -> bool
        ensures { result ≡ opens_lem (sought_view self.now) (frame_view frame.now) }
    {
        !self.begun
            && self.later
            && self.is(
                frame.seq,
                &next(&self.before, frame.seq, frame.kind, frame.content),
            )
    }

    fn is_of(&self, ticket: &Ticket) -> bool
        ensures { result ≡ is_ticket (sought_view self.now) (ticket_view ticket.now) }
    {
        self.is(ticket.seq(), &ticket.hash())
    }

    fn is_of_some(&self, ticket: &Option<Ticket>) -> bool
        ensures { result ≡ list_any (is_ticket (sought_view self.now)) (listed (option_map ticket_view ticket.now)) }
    {
        match ticket {
            Some(ticket) => self.is_of(ticket),
            None => false,
        }
    }

    /// Looks at the next item.
    pub fn item(&mut self, item: &Item<'_>)
        ensures { sought_view self.new ≡ looked (sought_view self.old) (item_view item.now) }
    {
        match item {
            Item::Carried(_, _) => {}
            Item::Entry(frame, ticket) => {
                let found = self.found || self.opens(frame) || self.is_of_some(ticket);
                self.found = found;
                self.begun = true;
            }
            Item::Seal(ticket) => {
                let found = self.found || self.is_of(ticket);
                self.found = found;
            }
            Item::Keep(_) => {}
        }
    }
}
