//! The first reading: which entries a base carries.

ghost use Rattle.std.specs.Prelude.{◌≡◌, map, option_map};
ghost use Rattle.jrnl_store.specs.Kept.{ticket_view};
ghost use Rattle.jrnl_store.specs.Items.{item_view};
ghost use Rattle.log_entry.specs.Views.{content_view, frame_view};
ghost use Rattle.rebut_pass.specs.Items.{HasForm};
ghost use Rattle.base_carried.specs.Rows.{noted, noted_entry, noted_if};
ghost use Rattle.base_carried.specs.Passes.{Finds};

use crate::row::Row;
use avm_num::NoMemory;
use jrnl_store::{Item, Ticket};
use log_entry::{Content, Frame, content};
use rebut_pass::Pass;
use std::alloc::Global;

/// What the peers' rows have found among the entries before that of a number.
#[derive(Drop)]
pub struct Finding {
    pub number: u64,
    pub rows: Vec<Row>,
}

/// Notes an entry of this number and this content in each row.
fn note(rows: &mut [Row], seq: u64, content: Content<'_>)
    ensures { rows.new ≡ map (noted seq (content_view content.entry)) rows.old }
{
    let mut at = 0;
    while at < rows.len() {
        let row = rows[at];
        rows[at] = row.with(seq, content);
        at += 1;
    }
}

impl Finding {
    /// Notes the next signed entry.
    fn entry(&mut self, frame: &Frame<'_>)
        ensures number { self.new.number ≡ self.old.number }
        ensures rows { self.new.rows.items ≡ map (noted_entry self.old.number (frame_view frame.now)) self.old.rows.items }
    {
        if frame.seq >= self.number {
            return;
        }
        let Some(content) = content(frame) else {
            return;
        };
        note(&mut self.rows, frame.seq, content);
    }

    /// Notes the next entry, where it is signed.
    fn signed(&mut self, frame: &Frame<'_>, ticket: &Option<Ticket>)
        ensures number { self.new.number ≡ self.old.number }
        ensures rows { self.new.rows.items ≡ noted_if (option_map ticket_view ticket.now) self.old.number (frame_view frame.now) self.old.rows.items }
    {
        match ticket {
            Some(_) => self.entry(frame),
            None => {}
        }
    }
}

impl Pass for Finding {
    ghost takes = { Finds };

    fn item(&mut self, _alloc: Global, item: &Item<'_>) -> Result<(), NoMemory> {
        match item {
            Item::Carried(frame, _) => self.entry(frame),
            Item::Entry(frame, ticket) => self.signed(frame, ticket),
            Item::Seal(_) => {}
            Item::Keep(_) => {}
        }
        Ok(())
    }
}
