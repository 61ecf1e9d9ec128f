//! The tickets of a journal's signed entries.

ghost use Rattle.std.proofs.Props.{props};
ghost use Rattle.std.specs.Prelude.{◌≡◌, ◌<◌, ◌++◌, [], List};
ghost use Rattle.journal_model.specs.Header.{CarriedData, most_leaves};
ghost use Rattle.jrnl_store.specs.Items.{IsLowItem, item_view};
ghost use Rattle.open_pass.specs.Tickets.{IsSignedBy, rows_in};
ghost use Rattle.record_kept.specs.Tickets.{AreKept, AreLow};

use jrnl_store::{Item, Journal, Ticket};
use log_entry::Frame;
use record_kept::{Kept, keep_entry};

/// The tickets that are kept of a journal with this key.
#[derive(Drop)]
pub struct Tickets {
    pub kept: Kept,
    pub key: [u8; 56],
    pub ghost low: { AreLow (most_leaves key) (rows_in kept) } by { Prim.hlevel props },
}

impl Tickets {
    ghost use Rattle.jrnl_store.specs.Kept.{kept as kept_of};

    /// Nothing is kept yet.
    pub fn new(journal: &Journal) -> Tickets
        ensures kept { AreKept (rows_in result.kept) [] }
        ensures key { result.key ≡ (kept_of journal.now).key }
    {
        Tickets {
            kept: Kept::new(),
            key: journal.key(),
        }
    }

    /// Keeps the ticket of the next item, where it is an entry that is signed.
    pub fn item(&mut self, item: &Item<'_>)
        requires low { IsLowItem (most_leaves self.old.key) (item_view item.now) }
        ensures kept { (es more : List CarriedData) → IsSignedBy (item_view item.now) more → AreKept (rows_in self.old.kept) es → AreKept (rows_in self.new.kept) (es ++ more) }
        ensures key { self.new.key ≡ self.old.key }
    {
        match item {
            Item::Carried(frame, ticket) => keep_entry(&mut self.kept, frame, *ticket),
            Item::Entry(frame, Some(ticket)) => keep_entry(&mut self.kept, frame, *ticket),
            Item::Entry(_, None) => {}
            Item::Seal(_) => {}
            Item::Keep(_) => {}
        }
    }
}
