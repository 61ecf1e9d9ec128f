//! Passes over a journal's items.

ghost use Rattle.std.specs.Prelude.{◌≡◌, ◌≤◌, List, ℕ, OnOk};
ghost use Rattle.std.specs.List.{AllByRecursion};
ghost use Rattle.journal_model.specs.Header.{most_leaves};
ghost use Rattle.jrnl_store.specs.Items.{ItemData, IsLowItem, item_view, items_in};
ghost use Rattle.jrnl_store.specs.Kept.{kept};
ghost use Rattle.rebut_pass.specs.Items.{HasForm};
ghost use Rattle.rebut_pass.specs.Passing.{Takes};
ghost use Rattle.rebut_pass.specs.Reads.{OnlyReads, ReadCounts, OfJournal};

use avm_num::NoMemory;
use avm_outside::Disk;
use jrnl_store::{Item, Items, Journal};
use rebut_pass::ReadFault;
use std::alloc::Global;

/// What goes over a journal's items, one after another.
pub trait Pass {
    /// One item more.
    ghost takes: { Self → ItemData → Self → Type 0 };

    /// The leaf of each ticket is below it.
    ghost most: { Self → ℕ };

    /// Takes the next item.
    fn item(&mut self, alloc: Global, item: &Item<'_>) -> Result<(), NoMemory>
        requires form { HasForm (item_view item.now) }
        requires low { IsLowItem (most self.old) (item_view item.now) }
        ensures taken { OnOk result (takes self.old (item_view item.now) self.new) }
        ensures stays { most self.new ≡ most self.old };
}

/// Takes the items of a record.
fn read_items<P: Pass>(alloc: Global, items: Items<'_>, pass: &mut P) -> Result<(), NoMemory>
    requires forms { AllByRecursion HasForm items }
    requires low { AllByRecursion (IsLowItem (P.most pass.old)) items }
    ensures taken { OnOk result (Takes P.takes pass.old items.entry pass.new) }
    ensures stays { P.most pass.new ≡ P.most pass.old }
{
    let mut left = items;
    while let Some(item) = left.next() {
        pass.item(alloc, &item)?;
    }
    Ok(())
}

/// Takes all items of a journal, in order.
pub fn read_all<D: Disk, P: Pass>(
    alloc: Global,
    journal: &mut Journal,
    disk: &mut D,
    pass: &mut P,
) -> Result<(), ReadFault>
    requires most { P.most pass.old ≡ most_leaves (kept journal.old).key }
    ensures taken { OnOk result (OfJournal (D.seen disk.old) (kept journal.old) (λ j. Takes P.takes pass.old (items_in j) pass.new)) }
    ensures stays { P.most pass.new ≡ P.most pass.old }
    ensures kept { kept journal.new ≡ kept journal.old }
    ensures reads { OnlyReads D.seen D.may_leave D.moment D.left_since disk.old disk.new }
    ensures faults { ReadCounts (D.faults disk.old) (D.faults disk.new) result }
{
    let mut cursor = journal.start();
    loop {
        let held = match journal.advance(disk, &mut cursor) {
            Ok(Some(held)) => held,
            Ok(None) => return Ok(()),
            Err(_) => return Err(ReadFault::DiskFault),
        };
        if let Err(_) = read_items(alloc, journal.items(held), pass) {
            return Err(ReadFault::NoMemory);
        }
    }
}
