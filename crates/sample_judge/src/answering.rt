//! The evidence, answered by the store.

ghost use Rattle.std.specs.Prelude.{◌≡◌, IfOk};
ghost use Rattle.std.specs.Str.{bytes_eq};
ghost use Rattle.avm_model.specs.Evidence.{FitsEvidence, key_of};
ghost use Rattle.avm_model.specs.Holds.{Holds};
ghost use Rattle.avm_outside.specs.MemDisks.{disk_bytes};
ghost use Rattle.evid_file.specs.Views.{evidence_view};
ghost use Rattle.journal_model.specs.Journal.{Is, JournalData, journal_of};
ghost use Rattle.jrnl_store.specs.Kept.{kept};
ghost use Rattle.rebut_command.specs.Judging.{KeyEnds, OpenEnds, judged_view};
ghost use Rattle.sample_judge.specs.Answers.{AnswersAs, OfHeader};
ghost use Rattle.sample_judge.specs.Counting.{IsOn};

use crate::numbers::open_journal;
use avm_num::NoMemory;
use avm_outside::MemDisk;
use evid_file::Evidence;
use jrnl_store::Journal;
use rebut_command::{Judged, Refusal};
use rebuttal::{RebutFault, Rebuttal, has_head, rebut};
use std::alloc::Global;

/// Whether the evidence is of the key.
fn is_of(key: &[u8; 56], evidence: &Evidence<'_>) -> bool
    ensures { result ≡ bytes_eq (key_of (evidence_view evidence.now)) key.now }
{
    match *evidence {
        Evidence::Double { key: own, .. } => own == *key,
        Evidence::Fork { key: own, .. } => own == *key,
        Evidence::Replay { key: own, .. } => own == *key,
    }
}

/// The answer, or why there is none.
fn answered(answer: Result<Rebuttal, RebutFault>) -> Result<Judged, NoMemory>
    ensures { IfOk result (AnswersAs answer) }
{
    match answer {
        Ok(rebuttal) => Ok(Judged::Answered(rebuttal)),
        Err(RebutFault::Unreplayed(number)) => Ok(Judged::Refused(Refusal::Journal(number))),
        Err(RebutFault::Uncovered) => Ok(Judged::Refused(Refusal::Uncovered)),
        Err(RebutFault::NoMemory) => Err(NoMemory),
        Err(RebutFault::DiskFault) => Err(NoMemory),
    }
}

/// The answer of a journal whose header has a state.
fn answer_of_key(
    alloc: Global,
    journal: &mut Journal,
    disk: &mut MemDisk,
    evidence: &Evidence<'_>,
) -> Result<Judged, NoMemory>
    requires fits { FitsEvidence (evidence_view evidence.now) }
    requires holds { Holds (evidence_view evidence.now) }
    ensures { (j : JournalData) → IsOn j (kept journal.old) (disk_bytes disk.old) → IfOk result (λ r. OfHeader j (λ s. KeyEnds s j (evidence_view evidence.now) (judged_view r))) }
{
    if !is_of(&journal.key(), evidence) {
        return Ok(Judged::Refused(Refusal::Key));
    }
    answered(rebut(alloc, journal, disk, evidence))
}

/// The answer of a store to evidence that holds.
pub fn answer(
    alloc: Global,
    disk: &mut MemDisk,
    evidence: &Evidence<'_>,
) -> Result<Judged, NoMemory>
    requires fits { FitsEvidence (evidence_view evidence.now) }
    requires holds { Holds (evidence_view evidence.now) }
    ensures { (j : JournalData) → journal_of (disk_bytes disk.old) ≡ Is j → IfOk result (λ r. OpenEnds j (evidence_view evidence.now) (judged_view r)) }
{
    let mut journal = open_journal(alloc, disk)?;
    match has_head(alloc, &mut journal, disk) {
        Ok(true) => answer_of_key(alloc, &mut journal, disk, evidence),
        Ok(false) => Ok(Judged::Refused(Refusal::NoStore)),
        Err(_) => Err(NoMemory),
    }
}
