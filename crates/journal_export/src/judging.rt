//! Whether entries of a journal are a segment, and the state at the first of them.

ghost use Rattle.std.specs.Prelude.{◌≡◌, ◌==◌, ◌&&◌, ◌+◌, ◌^◌, ◌≤◌, nat_le, None, length, IfErr, IfOk, true};
ghost use Rattle.avm_model.specs.Head.{head_bytes};
ghost use Rattle.avm_model.specs.HeadReading.{head_of};
ghost use Rattle.avm_model.specs.HeadState.{data_of};
ghost use Rattle.jrnl_store.specs.Kept.{kept};
ghost use Rattle.keep_judge.specs.Good.{pages_fit};
ghost use Rattle.rebut_pass.specs.Reads.{OfJournal, OnlyReads};
ghost use Rattle.journal_export.specs.Counts.{DiskCounts};
ghost use Rattle.journal_export.specs.Exporting.{IsOfJudging, Judges, Taken};

use crate::fault::{ExportFault, of_read};
use crate::survey::Survey;
use crate::surveying::read_survey;
use avm_hash::Digest;
use avm_num::Room;
use avm_outside::Disk;
use guest_machine::Machine;
use jrnl_store::Journal;
use keep_judge::fits;
use open_replay::header_head;
use snap_state::head_len;
use std::alloc::Global;
use stretch_replay::{Stretched, stretch};

/// The state at a segment's first entry, and the chain's hash before that.
#[derive(Drop)]
pub struct Snapshot {
    pub machine: Machine,
    pub before: Digest,
}

/// Whether entries up to `to`, of a journal with this last entry, are a segment with the state of a machine.
fn is_range(survey: &Survey, last: u64, machine: &Machine) -> bool
    ensures { result ≡ (survey.now.begins && nat_le survey.now.cut.from survey.now.cut.to && nat_le survey.now.cut.to last && nat_le survey.now.snaps 64
        && nat_le (49 + length (head_bytes (data_of machine.now.state)) + length machine.now.state.ram + survey.now.size) (2 ^ 26)) }
{
    let from = survey.cut.from;
    let to = survey.cut.to;
    machine.bounds();
    let pages = machine.ram().bytes().len() as u64;
    let size = 49 + head_len(machine) as u64 + pages + survey.size;
    survey.begins && from <= to && to <= last && survey.snaps <= 64 && size <= 1 << 26
}

/// The snapshot of a segment, or why there is none, by what both readings tell.
fn take_snapshot(read: Stretched, survey: &Survey, last: u64) -> Result<Snapshot, ExportFault>
    ensures { Taken read survey.now last result }
{
    if let Some(number) = read.fault {
        return Err(ExportFault::Unreplayed(number));
    }
    let machine = read.machine;
    if !is_range(survey, last, &machine) {
        return Err(ExportFault::Range);
    }
    if machine.devices().pending() {
        return Err(ExportFault::Range);
    }
    Ok(Snapshot {
        machine,
        before: survey.hash,
    })
}

/// Judges the entries `from` to `to` of a journal whose header has this head.
fn judge_entries<D: Disk>(
    alloc: Global,
    journal: &mut Journal,
    disk: &mut D,
    head: Room,
    from: u64,
    to: u64,
) -> Result<Snapshot, ExportFault>
    requires fits { pages_fit (kept journal.old).bounds.pages (head_of head.bytes) ≡ true }
    requires room { head.capacity ≡ 16384 }
    ensures judges { OfJournal (D.seen disk.old) (kept journal.old) (λ j. head.bytes ≡ j.header.head → Judges from to j result) }
    ensures clock { IfOk result (λ s. s.machine.state.devices.clock ≡ None) }
    ensures cause { IfErr result IsOfJudging }
    ensures kept { kept journal.new ≡ kept journal.old }
    ensures reads { OnlyReads D.seen D.may_leave D.moment D.left_since disk.old disk.new }
    ensures disk { DiskCounts (D.faults disk.old) (D.faults disk.new) result }
{
    let read = match stretch(alloc, journal, disk, head, from) {
        Ok(read) => read,
        Err(fault) => return Err(of_read(fault)),
    };
    let survey = match read_survey(alloc, journal, disk, from, to) {
        Ok(survey) => survey,
        Err(fault) => return Err(of_read(fault)),
    };
    take_snapshot(read, &survey, journal.last())
}

/// Judges the entries `from` to `to` of a journal: whether its header has a head, whether the entries up to the first replay, and
/// whether they are a segment.
pub fn judge<D: Disk>(
    alloc: Global,
    journal: &mut Journal,
    disk: &mut D,
    from: u64,
    to: u64,
) -> Result<Snapshot, ExportFault>
    ensures judges { OfJournal (D.seen disk.old) (kept journal.old) (λ j. Judges from to j result) }
    ensures clock { IfOk result (λ s. s.machine.state.devices.clock ≡ None) }
    ensures cause { IfErr result IsOfJudging }
    ensures kept { kept journal.new ≡ kept journal.old }
    ensures reads { OnlyReads D.seen D.may_leave D.moment D.left_since disk.old disk.new }
    ensures disk { DiskCounts (D.faults disk.old) (D.faults disk.new) result }
{
    let head = match header_head(alloc, journal, disk) {
        Ok(head) => head,
        Err(fault) => return Err(of_read(fault)),
    };
    if !fits(head.bytes(), journal.page_count()) {
        return Err(ExportFault::NoStore);
    }
    judge_entries(alloc, journal, disk, head, from, to)
}
