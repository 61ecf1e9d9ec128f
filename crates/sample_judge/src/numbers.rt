//! The numbers of a journal.

ghost use Rattle.std.specs.Prelude.{◌≡◌, IfOk, OnOk};
ghost use Rattle.avm_outside.specs.MemDisks.{disk_bytes};
ghost use Rattle.jrnl_store.specs.Items.{entry_item, item_view};
ghost use Rattle.jrnl_store.specs.Kept.{kept};
ghost use Rattle.journal_model.specs.Journal.{Is, JournalData, journal_of};
ghost use Rattle.log_entry.specs.Views.{frame_view};
ghost use Rattle.sample_judge.specs.Counting.{Counts, IsOn, NumbersOf, counted, numbers_view};

use avm_num::NoMemory;
use avm_outside::MemDisk;
use jrnl_store::{Item, Journal};
use log_entry::Frame;
use rebut_pass::{Pass, read_all};
use std::alloc::Global;

/// How many SNAP entries a journal has, and the number of the first, or 0.
#[derive(Drop)]
pub struct Numbers {
    pub snaps: u64,
    pub first: u64,
}

impl Numbers {
    /// One entry more.
    fn entry(&mut self, frame: &Frame<'_>) -> Result<(), NoMemory>
        ensures { OnOk result (numbers_view self.new ≡ counted (numbers_view self.old) (frame_view frame.now)) }
    {
        if frame.kind != 2 {
            return Ok(());
        }
        let Some(snaps) = self.snaps.checked_add(1) else {
            return Err(NoMemory);
        };
        if self.snaps == 0 {
            self.first = frame.seq;
        }
        self.snaps = snaps;
        Ok(())
    }
}

impl Pass for Numbers {
    ghost takes = { Counts };

    fn item(&mut self, _alloc: Global, item: &Item<'_>) -> Result<(), NoMemory> {
        match item {
            Item::Carried(_, _) => Ok(()),
            Item::Entry(frame, _) => self.entry(frame),
            Item::Seal(_) => Ok(()),
            Item::Keep(_) => Ok(()),
        }
    }
}

/// Opens the journal of a disk.
pub fn open_journal(alloc: Global, disk: &mut MemDisk) -> Result<Journal, NoMemory>
    ensures on { (j : JournalData) → journal_of (disk_bytes disk.old) ≡ Is j → IfOk result (λ v. IsOn j (kept v) (disk_bytes disk.new)) }
    ensures same { disk_bytes disk.new ≡ disk_bytes disk.old }
{
    match Journal::attach(alloc, disk) {
        Ok(journal) => Ok(journal),
        Err(_) => Err(NoMemory),
    }
}

/// Reads the journal of a disk.
pub fn read_numbers(alloc: Global, disk: &mut MemDisk) -> Result<Numbers, NoMemory>
    ensures numbers { (j : JournalData) → journal_of (disk_bytes disk.old) ≡ Is j → IfOk result (NumbersOf j) }
    ensures same { disk_bytes disk.new ≡ disk_bytes disk.old }
{
    let mut journal = open_journal(alloc, disk)?;
    let mut numbers = Numbers { snaps: 0, first: 0 };
    match read_all(alloc, &mut journal, disk, &mut numbers) {
        Ok(()) => Ok(numbers),
        Err(_) => Err(NoMemory),
    }
}
