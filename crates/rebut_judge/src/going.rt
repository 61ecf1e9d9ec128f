// A journal's entries up to a number, replayed.
ghost use Rattle.std.specs.Prelude.{◌≡◌, ◌&&◌, nat_lt, None, IsSome};
ghost use Rattle.avm_model.specs.Content.{content_at};
ghost use Rattle.jrnl_store.specs.Items.{item_view, entry_item};
ghost use Rattle.log_entry.specs.Views.{frame_view};
ghost use Rattle.rebut_judge.specs.Going.{Steps};

use crate::judge::Judge;
use avm_num::NoMemory;
use jrnl_store::Item;
use log_entry::Frame;
use rebut_pass::Pass;
use std::alloc::Global;

/// A journal's entries up to a number, judged one after another, and whether one behind it has come.
#[derive(Drop)]
pub struct Going {
    pub judge: Judge,
    pub number: u64,
    pub begun: bool,
    pub past: bool,
}

impl Going {
    /// Whether an entry is one behind the number.
    fn is_past(&self, frame: &Frame<'_>) -> bool
        ensures { result ≡ (self.now.begun && nat_lt self.now.number frame.now.seq) }
    {
        self.begun && frame.seq > self.number
    }

    /// Takes the next entry.
    fn entry(&mut self, frame: &Frame<'_>)
        requires form { IsSome (content_at frame.now.kind frame.now.content.now) }
        ensures { Steps self.old (entry_item (frame_view frame.now) None) self.new }
    {
        if self.past {
            return;
        }
        if self.is_past(frame) {
            self.past = true;
            return;
        }
        self.begun = true;
        self.judge.entry(frame);
    }
}

impl Pass for Going {
    ghost takes = { Steps };

    fn item(&mut self, _alloc: Global, item: &Item<'_>) -> Result<(), NoMemory> {
        if let Item::Entry(frame, _) = item {
            self.entry(frame);
        }
        Ok(())
    }
}
