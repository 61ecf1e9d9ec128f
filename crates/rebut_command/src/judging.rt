// How evidence is judged by a store.
ghost use Rattle.std.specs.Prelude.{◌≡◌, Some, IfOk, IfSome};
ghost use Rattle.avm_model.specs.Evidence.{evidence_at, key_of, FitsEvidence};
ghost use Rattle.evid_file.specs.Views.{evidence_view};
ghost use Rattle.jrnl_store.specs.Kept.{kept};
ghost use Rattle.rebut_command.specs.Judging.{judged_view, JudgeCounts, StoreEnds, OpenEnds, KeyEnds, HoldingEnds, BytesEnd, unopened_of, unread_of, answered_of};
ghost use Rattle.rebut_pass.specs.Reads.{OnlyReads, OfJournal, OfState};

use crate::evidence::is_of;
use crate::refusal::Refusal;
use auditor::check;
use avm_outside::Disk;
use command_parts::Fault;
use evid_file::{Evidence, read_evidence};
use jrnl_store::{Journal, StoreFault};
use rebut_pass::ReadFault;
use rebuttal::{RebutFault, Rebuttal, has_head, rebut};
use std::alloc::Global;

/// The answer to evidence, or why there is none.
#[derive(Drop)]
pub enum Judged {
    Refused(Refusal),
    Answered(Rebuttal),
}

/// Why a store isn't opened.
fn unopened(fault: StoreFault) -> Result<Judged, Fault>
    ensures { result ≡ unopened_of fault }
{
    match fault {
        StoreFault::NoMemory => Err(Fault::NoMemory),
        StoreFault::DiskFault => Err(Fault::Disk),
        StoreFault::Damaged(place) => Ok(Judged::Refused(Refusal::Damaged(place))),
        _ => Ok(Judged::Refused(Refusal::NoStore)),
    }
}

/// Why a store isn't read.
fn unread(fault: ReadFault) -> Fault
    ensures { result ≡ unread_of fault }
{
    match fault {
        ReadFault::NoMemory => Fault::NoMemory,
        ReadFault::DiskFault => Fault::Disk,
    }
}

/// The answer, or why there is none.
fn answered(answer: Result<Rebuttal, RebutFault>) -> Result<Judged, Fault>
    ensures { result ≡ answered_of answer }
{
    match answer {
        Ok(rebuttal) => Ok(Judged::Answered(rebuttal)),
        Err(RebutFault::NoMemory) => Err(Fault::NoMemory),
        Err(RebutFault::DiskFault) => Err(Fault::Disk),
        Err(RebutFault::Unreplayed(number)) => Ok(Judged::Refused(Refusal::Journal(number))),
        Err(RebutFault::Uncovered) => Ok(Judged::Refused(Refusal::Uncovered)),
    }
}

/// Judges evidence of the store's key: whether it holds, and then by the journal.
fn judge_holding<D: Disk>(
    alloc: Global,
    journal: &mut Journal,
    disk: &mut D,
    bytes: &[u8],
    evidence: &Evidence<'_>,
) -> Result<Judged, Fault>
    requires read { evidence_at bytes.now ≡ Some (evidence_view evidence.now) }
    requires fits { FitsEvidence (evidence_view evidence.now) }
    requires key { key_of (evidence_view evidence.now) ≡ (kept journal.old).key }
    ensures ends { IfOk result (λ r. OfState (D.seen disk.old) (kept journal.old) (λ s j. HoldingEnds s j (evidence_view evidence.now) (judged_view r))) }
    ensures reads { OnlyReads D.seen D.may_leave D.moment D.left_since disk.old disk.new }
    ensures counts { JudgeCounts (D.faults disk.old) (D.faults disk.new) result }
{
    match check(alloc, &journal.key(), bytes) {
        Ok(true) => answered(rebut(alloc, journal, disk, evidence)),
        Ok(false) => Ok(Judged::Refused(Refusal::Evidence)),
        Err(_) => Err(Fault::NoMemory),
    }
}

/// Judges evidence by a store whose header has a state: whether it is of the store's key, and then whether it holds.
fn judge_key<D: Disk>(
    alloc: Global,
    journal: &mut Journal,
    disk: &mut D,
    bytes: &[u8],
    evidence: &Evidence<'_>,
) -> Result<Judged, Fault>
    requires read { evidence_at bytes.now ≡ Some (evidence_view evidence.now) }
    requires fits { FitsEvidence (evidence_view evidence.now) }
    ensures ends { IfOk result (λ r. OfState (D.seen disk.old) (kept journal.old) (λ s j. KeyEnds s j (evidence_view evidence.now) (judged_view r))) }
    ensures reads { OnlyReads D.seen D.may_leave D.moment D.left_since disk.old disk.new }
    ensures counts { JudgeCounts (D.faults disk.old) (D.faults disk.new) result }
{
    if !is_of(&journal.key(), evidence) {
        return Ok(Judged::Refused(Refusal::Key));
    }
    judge_holding(alloc, journal, disk, bytes, evidence)
}

/// Judges evidence by an open store: whether its header has a state, and then by its key.
fn judge_open<D: Disk>(
    alloc: Global,
    journal: &mut Journal,
    disk: &mut D,
    bytes: &[u8],
    evidence: &Evidence<'_>,
) -> Result<Judged, Fault>
    requires read { evidence_at bytes.now ≡ Some (evidence_view evidence.now) }
    requires fits { FitsEvidence (evidence_view evidence.now) }
    ensures ends { IfOk result (λ r. OfJournal (D.seen disk.old) (kept journal.old) (λ j. OpenEnds j (evidence_view evidence.now) (judged_view r))) }
    ensures reads { OnlyReads D.seen D.may_leave D.moment D.left_since disk.old disk.new }
    ensures counts { JudgeCounts (D.faults disk.old) (D.faults disk.new) result }
{
    match has_head(alloc, journal, disk) {
        Ok(true) => judge_key(alloc, journal, disk, bytes, evidence),
        Ok(false) => Ok(Judged::Refused(Refusal::NoStore)),
        Err(fault) => Err(unread(fault)),
    }
}

/// Judges evidence by the store on a disk.
fn judge_store<D: Disk>(
    alloc: Global,
    disk: &mut D,
    bytes: &[u8],
    evidence: &Evidence<'_>,
) -> Result<Judged, Fault>
    requires read { evidence_at bytes.now ≡ Some (evidence_view evidence.now) }
    requires fits { FitsEvidence (evidence_view evidence.now) }
    ensures ends { IfOk result (λ r. IfSome (D.seen disk.old) (λ was. StoreEnds was (evidence_view evidence.now) (judged_view r))) }
    ensures reads { OnlyReads D.seen D.may_leave D.moment D.left_since disk.old disk.new }
    ensures counts { JudgeCounts (D.faults disk.old) (D.faults disk.new) result }
{
    match Journal::attach(alloc, disk) {
        Ok(journal) => {
            let mut journal = journal;
            judge_open(alloc, &mut journal, disk, bytes, evidence)
        }
        Err(fault) => unopened(fault),
    }
}

/// Judges bytes by the store on a disk: whether they are evidence, and then by the store.
pub fn judge_bytes<D: Disk>(alloc: Global, disk: &mut D, bytes: &[u8]) -> Result<Judged, Fault>
    ensures ends { IfOk result (λ r. BytesEnd (evidence_at bytes.now) (D.seen disk.old) (judged_view r)) }
    ensures reads { OnlyReads D.seen D.may_leave D.moment D.left_since disk.old disk.new }
    ensures counts { JudgeCounts (D.faults disk.old) (D.faults disk.new) result }
{
    match read_evidence(bytes) {
        Some(evidence) => judge_store(alloc, disk, bytes, &evidence),
        None => Ok(Judged::Refused(Refusal::Evidence)),
    }
}
