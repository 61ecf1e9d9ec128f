// One reading of a journal: whether it replays, two pairs, and its entries beside the evidence's.
ghost use Rattle.std.specs.Prelude.{◌≡◌, ◌++◌, List, OnOk};
ghost use Rattle.avm_model.specs.Frame.{FrameData};
ghost use Rattle.jrnl_store.specs.Items.{item_view};
ghost use Rattle.rebut_texts.specs.Walk.{walk_view, finds};
ghost use Rattle.rebut_pass.specs.Items.{frame_in, HasForm};
ghost use Rattle.rebut_judge.specs.Reading.{Reads};

use crate::judge::Judge;
use avm_num::NoMemory;
use jrnl_store::Item;
use rebut_pass::{Pass, Sought};
use rebut_texts::Walk;
use std::alloc::Global;

/// What is read of a journal at once.
#[derive(Drop)]
pub struct Reading<'a> {
    pub judge: Judge,
    pub one: Sought,
    pub two: Sought,
    pub walk: Walk<'a>,
}

impl<'a> Reading<'a> {
    /// Compares the next item's entry.
    fn compare(&mut self, alloc: Global, item: &Item<'_>) -> Result<(), NoMemory>
        ensures walk { OnOk result ((fs : List FrameData) → finds (walk_view self.new.walk) fs ≡ finds (walk_view self.old.walk) (frame_in (item_view item.now) ++ fs)) }
        ensures judge { self.new.judge ≡ self.old.judge }
        ensures one { self.new.one ≡ self.old.one }
        ensures two { self.new.two ≡ self.old.two }
    {
        if let Item::Entry(frame, _) = item {
            return self.walk.entry(alloc, frame);
        }
        Ok(())
    }
}

impl<'a> Pass for Reading<'a> {
    ghost takes = { Reads };

    fn item(&mut self, alloc: Global, item: &Item<'_>) -> Result<(), NoMemory> {
        self.judge.item(item);
        self.one.item(item);
        self.two.item(item);
        self.compare(alloc, item)
    }
}
