//! What a journal gives when it is read.
ghost use Rattle.std.specs.Prelude.{◌≡◌};
ghost use Rattle.jrnl_store.specs.Kept.{kept};

use crate::tests::untold::Untold;
use jrnl_store::{Item, Journal};
use std::alloc::{AllocError, Global};

/// An item, by its number and kind, with the leaf that signs it.
#[derive(Clone, Copy, Debug, PartialEq, Eq)]
pub enum Shown {
    Carried(u64, u8, u32),
    Entry(u64, u8),
    Signed(u64, u8, u32),
    Seal(u64, u32),
    Keep(u64),
}

fn show(item: &Item<'_>) -> Shown {
    match item {
        Item::Carried(frame, ticket) => Shown::Carried(frame.seq, frame.kind, ticket.leaf()),
        Item::Entry(frame, Some(ticket)) => Shown::Signed(frame.seq, frame.kind, ticket.leaf()),
        Item::Entry(frame, None) => Shown::Entry(frame.seq, frame.kind),
        Item::Seal(ticket) => Shown::Seal(ticket.seq(), ticket.leaf()),
        Item::Keep(keep) => Shown::Keep(keep.seq),
    }
}

/// The items of a journal, up to a fault.
pub fn items(
    alloc: Global,
    journal: &mut Journal,
    disk: &mut Untold,
) -> Result<Vec<Shown>, AllocError> {
    let mut all = Vec::new(alloc);
    let mut cursor = journal.start();
    while let Ok(Some(held)) = journal.advance(disk, &mut cursor) {
        for item in journal.items(held) {
            all.push(show(&item))?;
        }
    }
    Ok(all)
}
