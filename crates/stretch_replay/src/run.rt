//! The entries behind a base up to a number, replayed.

ghost use Rattle.std.specs.Prelude.{◌≡◌, None, IsSome};
ghost use Rattle.avm_model.specs.Content.{content_at};
ghost use Rattle.journal_model.specs.Header.{most_leaves};
ghost use Rattle.jrnl_store.specs.Items.{IsLowItem, entry_item, item_view};
ghost use Rattle.log_entry.specs.Views.{frame_view};
ghost use Rattle.rebut_pass.specs.Items.{HasForm};
ghost use Rattle.stretch_replay.specs.Running.{Runs};

use avm_num::NoMemory;
use jrnl_store::Item;
use log_entry::Frame;
use open_pass::Pass;
use rebut_judge::Judge;
use std::alloc::Global;

/// A replay of a journal's entries from its base on, up to a number.
#[derive(Drop)]
pub struct Run {
    pub judge: Judge,
    pub key: [u8; 56],
    /// The last number that is replayed.
    pub number: u64,
    /// So many keeps stand up to the base and are to come.
    pub skip: u64,
    /// Whether an entry past the number has come.
    pub past: bool,
}

impl Run {
    /// Takes the next entry.
    fn entry(&mut self, frame: &Frame<'_>)
        requires form { IsSome (content_at frame.now.kind frame.now.content.now) }
        ensures runs { Runs self.old (entry_item (frame_view frame.now) None) self.new }
        ensures key { self.new.key ≡ self.old.key }
    {
        if self.skip > 0 || self.past {
            return;
        }
        if frame.seq > self.number {
            self.past = true;
            return;
        }
        self.judge.entry(frame);
    }
}

impl Pass for Run {
    ghost takes = { Runs };

    ghost most = { λ r. most_leaves r.key };

    fn item(&mut self, _alloc: Global, item: &Item<'_>) -> Result<(), NoMemory> {
        match item {
            Item::Carried(_, _) => {}
            Item::Entry(frame, _) => self.entry(frame),
            Item::Seal(_) => {}
            Item::Keep(_) => self.skip = self.skip.saturating_sub(1),
        }
        Ok(())
    }
}
