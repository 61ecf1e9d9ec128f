//! Entries sought by their tickets.

ghost use Rattle.std.specs.Prelude.{◌≡◌, ◌≤◌, ◌++◌, ◌∷◌, List, ℕ, Option, None, Some, option_map, unwrap_or, MatchOption, IfSome, IfOk, IfErr};
ghost use Rattle.log_entry.specs.Views.{frame_view};
ghost use Rattle.journal_model.specs.Journal.{JournalData, ended, Is};
ghost use Rattle.jrnl_store.specs.Kept.{ticket_view};
ghost use Rattle.jrnl_store.specs.Items.{ItemData, item_view, frame_numbered};

use crate::cursor::{Record, Sought};
use crate::fault::StoreFault;
use crate::items::{Item, Items};
use crate::journal::Journal;
use crate::ticket::Ticket;
use avm_outside::Disk;
use log_entry::Frame;

/// An item's entry, where it is one of this number.
fn frame_here<'a>(item: &Item<'a>, number: u64) -> Option<Frame<'a>>
    ensures { (xs : List ItemData) → MatchOption result (frame_numbered number (item_view item.now ∷ xs) ≡ frame_numbered number xs) (λ f. frame_numbered number (item_view item.now ∷ xs) ≡ Some (frame_view f)) }
{
    let frame = match item {
        Item::Carried(frame, _) => *frame,
        Item::Entry(frame, _) => *frame,
        Item::Seal(_) => return None,
        Item::Keep(_) => return None,
    };
    if frame.seq == number {
        Some(frame)
    } else {
        None
    }
}

/// The first entry of a number among items.
fn find_frame<'a>(items: Items<'a>, number: u64) -> Option<Frame<'a>>
    ensures { (rest : List ItemData) → MatchOption result (frame_numbered number (items.entry ++ rest) ≡ frame_numbered number rest) (λ f. frame_numbered number (items.entry ++ rest) ≡ Some (frame_view f)) }
{
    let mut left = items;
    while let Some(item) = left.next() {
        if let Some(frame) = frame_here(&item, number) {
            return Some(frame);
        }
    }
    None
}

impl Journal {
    ghost use Rattle.std.specs.Prelude.{[]};
    ghost use Rattle.jrnl_store.specs.Kept.{kept};
    ghost use Rattle.jrnl_store.specs.Own.{IsAt, CountsFaults};
    ghost use Rattle.jrnl_store.specs.Items.{IsHeld, disk_fault, items_in};
    ghost use Rattle.jrnl_store.specs.Frames.{sought_frame, no_frame};

    /// Seeks the entry of a ticket, and reads its record into the buffer. `frame` shows the entry.
    pub fn seek_frame<D: Disk>(
        &mut self,
        disk: &mut D,
        ticket: &Ticket,
    ) -> Result<Sought, StoreFault>
        ensures held { IfOk result (λ s. IsHeld self.new.bounds self.new.buffer.items s.held) }
        ensures frame { IfOk result (λ s. IfSome (D.seen disk.old) (λ was. (j : JournalData) → IsAt (kept self.old) was j → ended j ≡ Is j
            → sought_frame self.new.buffer.items s ≡ frame_numbered (ticket_view ticket.now).seq (items_in j))) }
        ensures cause { IfErr result (λ e. e ≡ disk_fault) }
        ensures kept { kept self.new ≡ kept self.old }
        ensures same { D.seen disk.new ≡ D.seen disk.old }
        ensures crash { (c : List ℕ) → D.may_leave disk.new c → D.may_leave disk.old c }
        ensures later { D.moment disk.old ≤ D.moment disk.new }
        ensures moments { (t : ℕ) (c : List ℕ) → t ≤ D.moment disk.old → D.left_since disk.new t c → D.left_since disk.old t c }
        ensures faults { CountsFaults (D.faults disk.old) (D.faults disk.new) result }
    {
        let number = ticket.seq();
        let mut cursor = self.start();
        loop {
            let held = match self.advance(disk, &mut cursor) {
                Ok(Some(held)) => held,
                Ok(None) => {
                    let held = Record {
                        carried: false,
                        size: 0,
                        stand: cursor.stand,
                    };
                    return Ok(Sought { held, number });
                }
                Err(fault) => return Err(fault),
            };
            if find_frame(self.items(held), number).is_some() {
                return Ok(Sought { held, number });
            }
        }
    }

    /// The entry that was sought. Where a disk that doesn't tell its content gave other bytes than before, an empty one.
    pub fn frame(&self, sought: Sought) -> Frame<'_>
        requires held { IsHeld self.now.bounds self.now.buffer.items sought.held }
        ensures { frame_view result ≡ unwrap_or (sought_frame self.now.buffer.items sought) (no_frame sought.number) }
    {
        match find_frame(self.items(sought.held), sought.number) {
            Some(frame) => frame,
            None => Frame {
                seq: sought.number,
                kind: 0,
                content: &[],
            },
        }
    }
}
