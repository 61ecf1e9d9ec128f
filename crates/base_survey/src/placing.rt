//! What a journal's items tell of an entry's place.

ghost use Rattle.std.specs.Prelude.{◌≡◌, ◌+◌, ◌^◌, ◌≤◌, min, None, if◌then◌else◌, IfOk};
ghost use Rattle.avm_model.specs.Basics.{flag};
ghost use Rattle.journal_model.specs.Part.{is_signed_kind};
ghost use Rattle.jrnl_store.specs.Items.{entry_item, item_view};
ghost use Rattle.jrnl_store.specs.Kept.{kept};
ghost use Rattle.log_entry.specs.Views.{frame_view};
ghost use Rattle.rebut_pass.specs.Items.{HasForm};
ghost use Rattle.rebut_pass.specs.Reads.{OfJournal, OnlyReads, ReadCounts};
ghost use Rattle.base_survey.specs.Surveys.{IsPlace, Surveys, more_late, survey_view, surveyed};

use crate::survey::{Place, Survey};
use avm_num::NoMemory;
use avm_outside::Disk;
use jrnl_part::is_signed;
use jrnl_store::{Item, Journal};
use log_chain::next;
use log_entry::Frame;
use rebut_pass::{Pass, ReadFault, read_all};
use std::alloc::Global;

/// More signing items than a key has leaves: a count stays there.
const MOST: u64 = 1 << 16;

impl Survey {
    /// Counts an item that signs.
    fn count(&mut self)
        ensures late { self.new.late ≡ more_late self.old.late 1 }
        ensures number { self.new.number ≡ self.old.number }
        ensures hash { self.new.hash ≡ self.old.hash }
        ensures reached { self.new.reached ≡ self.old.reached }
        ensures snap { self.new.snap ≡ self.old.snap }
    {
        self.late = (self.late + 1).min(MOST);
    }

    /// Takes the next entry.
    fn entry(&mut self, frame: &Frame<'_>)
        ensures { survey_view self.new ≡ surveyed (survey_view self.old) (entry_item (frame_view frame.now) None) }
    {
        if !self.reached && frame.seq != self.number {
            self.hash = next(&self.hash, frame.seq, frame.kind, frame.content);
            return;
        }
        if !self.reached {
            self.reached = true;
            self.snap = frame.kind == 2;
        }
        if is_signed(frame.kind) {
            self.count();
        }
    }

    /// Takes the next seal.
    fn seal(&mut self)
        ensures late { self.new.late ≡ (if self.old.reached then more_late self.old.late 1 else self.old.late) }
        ensures number { self.new.number ≡ self.old.number }
        ensures hash { self.new.hash ≡ self.old.hash }
        ensures reached { self.new.reached ≡ self.old.reached }
        ensures snap { self.new.snap ≡ self.old.snap }
    {
        if self.reached {
            self.count();
        }
    }
}

impl Pass for Survey {
    ghost takes = { Surveys };

    fn item(&mut self, _alloc: Global, item: &Item<'_>) -> Result<(), NoMemory> {
        match item {
            Item::Carried(_, _) => {}
            Item::Entry(frame, _) => self.entry(frame),
            Item::Seal(_) => self.seal(),
            Item::Keep(_) => {}
        }
        Ok(())
    }
}

/// Reads where the entry of a number stands in a journal.
pub fn read_place<D: Disk>(
    alloc: Global,
    journal: &mut Journal,
    disk: &mut D,
    number: u64,
) -> Result<Place, ReadFault>
    ensures place { IfOk result (λ p. OfJournal (D.seen disk.old) (kept journal.old) (λ j. IsPlace j number p)) }
    ensures kept { kept journal.new ≡ kept journal.old }
    ensures reads { OnlyReads D.seen D.may_leave D.moment D.left_since disk.old disk.new }
    ensures faults { ReadCounts (D.faults disk.old) (D.faults disk.new) result }
{
    let mut survey = Survey {
        number,
        hash: journal.before(),
        reached: false,
        snap: false,
        late: 0,
    };
    match read_all(alloc, journal, disk, &mut survey) {
        Ok(()) => Ok(Place {
            snap: survey.snap,
            before: survey.hash,
            leaves: journal.bound().saturating_sub(survey.late),
        }),
        Err(fault) => Err(fault),
    }
}
