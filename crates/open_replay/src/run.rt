//! The entries behind a base, replayed.

ghost use Rattle.std.specs.Prelude.{◌≡◌, None, IsSome};
ghost use Rattle.avm_model.specs.Content.{content_at};
ghost use Rattle.journal_model.specs.Header.{most_leaves};
ghost use Rattle.jrnl_store.specs.Items.{IsLowItem, entry_item, item_view};
ghost use Rattle.log_entry.specs.Views.{frame_view};
ghost use Rattle.rebut_pass.specs.Items.{HasForm};
ghost use Rattle.open_replay.specs.Running.{Runs};

use avm_num::NoMemory;
use jrnl_store::Item;
use log_entry::Frame;
use open_pass::Pass;
use rebut_judge::Judge;
use std::alloc::Global;

/// A replay of a journal's entries from its base on.
#[derive(Drop)]
pub struct Run {
    pub judge: Judge,
    pub key: [u8; 56],
    /// So many keeps stand up to the base and are to come.
    pub skip: u64,
    /// Whether an entry of the base, or the journal's first, has come.
    pub begun: bool,
    /// Whether a SNAP has come behind that one.
    pub snaps: bool,
}

impl Run {
    /// Takes the next entry.
    fn entry(&mut self, frame: &Frame<'_>)
        requires form { IsSome (content_at frame.now.kind frame.now.content.now) }
        ensures runs { Runs self.old (entry_item (frame_view frame.now) None) self.new }
        ensures key { self.new.key ≡ self.old.key }
    {
        if self.skip > 0 {
            return;
        }
        let snaps = self.snaps || self.begun && frame.kind == 2;
        self.snaps = snaps;
        self.begun = true;
        self.judge.entry(frame);
    }
}

impl Pass for Run {
    ghost takes = { Runs };

    ghost most = { λ r. most_leaves r.key };

    fn item(&mut self, _alloc: Global, item: &Item<'_>) -> Result<(), NoMemory> {
        match item {
            Item::Carried(_, _) => {}
            Item::Entry(frame, _) => self.entry(frame),
            Item::Seal(_) => {}
            Item::Keep(_) => self.skip = self.skip.saturating_sub(1),
        }
        Ok(())
    }
}
