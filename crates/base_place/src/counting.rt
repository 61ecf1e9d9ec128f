//! The bytes of a journal's carried entries, counted.

ghost use Rattle.std.specs.Prelude.{◌≡◌};
ghost use Rattle.jrnl_store.specs.Items.{item_view};
ghost use Rattle.log_entry.specs.Views.{frame_view};
ghost use Rattle.rebut_pass.specs.Items.{HasForm};
ghost use Rattle.base_place.specs.Sizes.{Sizes, more_bytes};

use crate::carriage::Carriage;
use avm_num::NoMemory;
use jrnl_store::Item;
use log_entry::Frame;
use rebut_pass::Pass;
use std::alloc::Global;

/// More bytes than carried entries have: a size stays there.
const MOST: u64 = 1 << 32;

impl Carriage {
    /// Adds a carried entry: its leaf, the hash before it, a length, and its frame.
    fn entry(&mut self, frame: &Frame<'_>)
        ensures { self.new.size ≡ more_bytes self.old.size (frame_view frame.now) }
    {
        let size = 57 + frame.content.len() as u64;
        self.size = (self.size + size).min(MOST);
    }
}

impl Pass for Carriage {
    ghost takes = { Sizes };

    fn item(&mut self, _alloc: Global, item: &Item<'_>) -> Result<(), NoMemory> {
        match item {
            Item::Carried(frame, _) => self.entry(frame),
            Item::Entry(_, _) => {}
            Item::Seal(_) => {}
            Item::Keep(_) => {}
        }
        Ok(())
    }
}
