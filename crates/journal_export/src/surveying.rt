//! What a journal's entries tell of a segment before it is written.

ghost use Rattle.std.specs.Prelude.{◌≡◌, ◌==◌, ◌||◌, ◌+◌, ◌^◌, ◌≤◌, not, min, length, if◌then◌else◌, IfOk, OnOk, List, ℕ};
ghost use Rattle.avm_model.specs.Basics.{flag};
ghost use Rattle.avm_model.specs.Chain.{next_hash};
ghost use Rattle.journal_model.specs.Header.{most_leaves};
ghost use Rattle.jrnl_store.specs.Items.{IsLowItem, item_view};
ghost use Rattle.jrnl_store.specs.Kept.{kept};
ghost use Rattle.log_entry.specs.Views.{frame_view};
ghost use Rattle.rebut_pass.specs.Items.{HasForm, frame_in};
ghost use Rattle.rebut_pass.specs.Reads.{OfJournal, OnlyReads, ReadCounts};
ghost use Rattle.journal_export.specs.Limits.{most_bytes, most_snaps};
ghost use Rattle.journal_export.specs.Survey.{IsSurveyOf, Surveys, SurveysOn};

use crate::cut::Cut;
use crate::survey::Survey;
use avm_hash::Digest;
use avm_num::NoMemory;
use avm_outside::Disk;
use jrnl_store::{Item, Journal};
use log_chain::next;
use log_entry::Frame;
use open_pass::{Pass, read_all};
use rebut_pass::ReadFault;
use std::alloc::Global;

/// A segment's limit, and one byte.
const MOST: u64 = (1 << 26) + 1;

impl Survey {
    /// The hash before the segment's first entry, behind one entry more.
    fn hash_on(&self, frame: &Frame<'_>) -> Digest
        ensures { result.0 ≡ (if self.now.cut.begun || frame.now.seq == self.now.cut.from then self.now.hash.0 else next_hash self.now.hash.0 (frame_view frame.now)) }
    {
        if self.cut.begun || frame.seq == self.cut.from {
            return self.hash;
        }
        next(&self.hash, frame.seq, frame.kind, frame.content)
    }

    /// Whether the segment's first entry is a BOOT or a SNAP, behind one entry more.
    fn begins_on(&self, frame: &Frame<'_>) -> bool
        ensures { result ≡ (if self.now.cut.begun || not (frame.now.seq == self.now.cut.from) then self.now.begins else frame.now.kind == 1 || frame.now.kind == 2) }
    {
        if self.cut.begun || frame.seq != self.cut.from {
            return self.begins;
        }
        frame.kind == 1 || frame.kind == 2
    }

    /// Counts an entry of the segment.
    fn count(&mut self, frame: &Frame<'_>)
        ensures snaps { self.new.snaps ≡ min most_snaps (self.old.snaps + flag (frame.now.kind == 2)) }
        ensures size { self.new.size ≡ min most_bytes (self.old.size + (13 + length frame.now.content.now)) }
        ensures cut { self.new.cut ≡ self.old.cut }
        ensures hash { self.new.hash ≡ self.old.hash }
        ensures begins { self.new.begins ≡ self.old.begins }
        ensures key { self.new.key ≡ self.old.key }
    {
        let more = if frame.kind == 2 { 1 } else { 0 };
        let snaps = (self.snaps + more).min(65);
        let len = (frame.content.len() as u64).min(MOST);
        let size = (self.size + 13 + len).min(MOST);
        self.snaps = snaps;
        self.size = size;
    }

    /// Takes the next entry.
    fn entry(&mut self, frame: &Frame<'_>)
        ensures surveys { SurveysOn self.old (frame_view frame.now) self.new }
        ensures key { self.new.key ≡ self.old.key }
    {
        let hash = self.hash_on(frame);
        let begins = self.begins_on(frame);
        self.hash = hash;
        self.begins = begins;
        if self.cut.takes(frame.seq) {
            self.count(frame);
        }
    }
}

impl Pass for Survey {
    ghost takes = { Surveys };

    ghost most = { λ s. most_leaves s.key };

    fn item(&mut self, _alloc: Global, item: &Item<'_>) -> Result<(), NoMemory> {
        match item {
            Item::Carried(_, _) => {}
            Item::Entry(frame, _) => self.entry(frame),
            Item::Seal(_) => {}
            Item::Keep(_) => {}
        }
        Ok(())
    }
}

/// Reads a journal for a segment of the entries `from` to `to`.
pub fn read_survey<D: Disk>(
    alloc: Global,
    journal: &mut Journal,
    disk: &mut D,
    from: u64,
    to: u64,
) -> Result<Survey, ReadFault>
    ensures surveyed { IfOk result (λ s. OfJournal (D.seen disk.old) (kept journal.old) (λ j. IsSurveyOf j from to s)) }
    ensures kept { kept journal.new ≡ kept journal.old }
    ensures reads { OnlyReads D.seen D.may_leave D.moment D.left_since disk.old disk.new }
    ensures faults { ReadCounts (D.faults disk.old) (D.faults disk.new) result }
{
    let mut survey = Survey {
        cut: Cut::new(from, to),
        key: journal.key(),
        hash: journal.before(),
        begins: false,
        snaps: 0,
        size: 0,
    };
    match read_all(alloc, journal, disk, &mut survey) {
        Ok(()) => Ok(survey),
        Err(fault) => Err(fault),
    }
}
