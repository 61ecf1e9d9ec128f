//! The owner's answer to evidence.
ghost use Rattle.std.specs.Prelude.{◌≡◌, ℕ, List, Some, None, true, IfOk, not, if◌then◌else◌};
ghost use Rattle.avm_model.specs.Auth.{AuthData};
ghost use Rattle.avm_model.specs.Evidence.{FitsEvidence, replay};
ghost use Rattle.avm_model.specs.Holds.{Holds};
ghost use Rattle.evid_file.specs.Views.{evidence_view};
ghost use Rattle.jrnl_store.specs.Kept.{kept};
ghost use Rattle.rebut_model.specs.Rebuts.{covers as covers_lem};
ghost use Rattle.rebuttal.specs.Answers.{RebutAnswers, RebutCounts};
ghost use Rattle.rebuttal.specs.Compared.{StatesCompared, WhereUndecided, WhereBound};
ghost use Rattle.rebut_pass.specs.Reads.{OnlyReads, ReadCounts, OfState};
ghost use Rattle.rebuttal.specs.Seen.{IsSeen};

use crate::answers::Rebuttal;
use crate::covering::covers;
use crate::evidence::whole_segment;
use crate::fault::{RebutFault, read_fault};
use crate::seen::{Seen, see};
use crate::states::differing_states;
use avm_outside::Disk;
use evid_file::Evidence;
use jrnl_store::Journal;
use rebut_pass::ReadFault;
use rebut_texts::Found;
use std::alloc::Global;

/// The first authenticator of evidence that isn't bound, by whether the first and the second are.
fn forged(one: bool, two: bool) -> Option<u32>
    ensures { result ≡ (if not one then Some 0 else if not two then Some 1 else None) }
{
    if !one {
        Some(0)
    } else if !two {
        Some(1)
    } else {
        None
    }
}

/// The first texts of states that differ, of a segment whose entries don't.
fn differing_segment<D: Disk>(
    alloc: Global,
    journal: &mut Journal,
    disk: &mut D,
    segment: &[u8],
) -> Result<Option<Found>, ReadFault>
    ensures value { IfOk result (λ r. OfState (D.seen disk.old) (kept journal.old) (λ s j. (key : List ℕ) (top : AuthData) → StatesCompared s j (replay key segment.now top) r)) }
    ensures kept { kept journal.new ≡ kept journal.old }
    ensures reads { OnlyReads D.seen D.may_leave D.moment D.left_since disk.old disk.new }
    ensures faults { ReadCounts (D.faults disk.old) (D.faults disk.new) result }
{
    match whole_segment(segment) {
        Some(parts) => differing_states(alloc, journal, disk, &parts),
        None => Ok(None),
    }
}

/// The first texts of states that differ, where those of entries don't.
fn differing<D: Disk>(
    alloc: Global,
    journal: &mut Journal,
    disk: &mut D,
    evidence: &Evidence<'_>,
) -> Result<Option<Found>, ReadFault>
    ensures value { IfOk result (λ r. OfState (D.seen disk.old) (kept journal.old) (λ s j. StatesCompared s j (evidence_view evidence.now) r)) }
    ensures kept { kept journal.new ≡ kept journal.old }
    ensures reads { OnlyReads D.seen D.may_leave D.moment D.left_since disk.old disk.new }
    ensures faults { ReadCounts (D.faults disk.old) (D.faults disk.new) result }
{
    match *evidence {
        Evidence::Double { .. } => Ok(None),
        Evidence::Fork { .. } => Ok(None),
        Evidence::Replay { segment, .. } => differing_segment(alloc, journal, disk, segment),
    }
}

/// The answer where all pairs are bound and no texts of entries differ.
fn answer_by_states<D: Disk>(
    alloc: Global,
    journal: &mut Journal,
    disk: &mut D,
    evidence: &Evidence<'_>,
) -> Result<Rebuttal, RebutFault>
    ensures answers { OfState (D.seen disk.old) (kept journal.old) (λ s j. WhereUndecided s j (evidence_view evidence.now) (RebutAnswers s j (evidence_view evidence.now) result)) }
    ensures kept { kept journal.new ≡ kept journal.old }
    ensures reads { OnlyReads D.seen D.may_leave D.moment D.left_since disk.old disk.new }
    ensures faults { RebutCounts (D.faults disk.old) (D.faults disk.new) result }
{
    match differing(alloc, journal, disk, evidence) {
        Ok(Some(found)) => Ok(Rebuttal::Collision(found.ours, found.theirs)),
        // A disk that doesn't tell its content gave other bytes than before.
        Ok(None) => Err(RebutFault::Unreplayed(journal.first())),
        Err(fault) => Err(read_fault(fault)),
    }
}

/// The answer where all pairs are bound, by the first texts of entries that differ.
fn answer_by_texts<D: Disk>(
    alloc: Global,
    journal: &mut Journal,
    disk: &mut D,
    evidence: &Evidence<'_>,
    found: Option<Found>,
) -> Result<Rebuttal, RebutFault>
    ensures answers { OfState (D.seen disk.old) (kept journal.old) (λ s j. WhereBound s j (evidence_view evidence.now) found (RebutAnswers s j (evidence_view evidence.now) result)) }
    ensures kept { kept journal.new ≡ kept journal.old }
    ensures reads { OnlyReads D.seen D.may_leave D.moment D.left_since disk.old disk.new }
    ensures faults { RebutCounts (D.faults disk.old) (D.faults disk.new) result }
{
    match found {
        Some(found) => Ok(Rebuttal::Collision(found.ours, found.theirs)),
        None => answer_by_states(alloc, journal, disk, evidence),
    }
}

/// The answer of a journal that replays and covers the evidence, by what one reading of it told.
fn answer<D: Disk>(
    alloc: Global,
    journal: &mut Journal,
    disk: &mut D,
    evidence: &Evidence<'_>,
    seen: Seen,
) -> Result<Rebuttal, RebutFault>
    requires fits { FitsEvidence (evidence_view evidence.now) }
    requires holds { Holds (evidence_view evidence.now) }
    ensures answers { OfState (D.seen disk.old) (kept journal.old) (λ s j. IsSeen s j (evidence_view evidence.now) seen → seen.fault ≡ None → covers_lem j (evidence_view evidence.now) ≡ true → RebutAnswers s j (evidence_view evidence.now) result) }
    ensures kept { kept journal.new ≡ kept journal.old }
    ensures reads { OnlyReads D.seen D.may_leave D.moment D.left_since disk.old disk.new }
    ensures faults { RebutCounts (D.faults disk.old) (D.faults disk.new) result }
{
    match forged(seen.one, seen.two) {
        Some(number) => Ok(Rebuttal::Forged(number)),
        None => answer_by_texts(alloc, journal, disk, evidence, seen.found),
    }
}

/// The answer of a journal that replays, by what one reading of it told; it may not cover the evidence.
fn covered<D: Disk>(
    alloc: Global,
    journal: &mut Journal,
    disk: &mut D,
    evidence: &Evidence<'_>,
    seen: Seen,
) -> Result<Rebuttal, RebutFault>
    requires fits { FitsEvidence (evidence_view evidence.now) }
    requires holds { Holds (evidence_view evidence.now) }
    ensures answers { OfState (D.seen disk.old) (kept journal.old) (λ s j. IsSeen s j (evidence_view evidence.now) seen → seen.fault ≡ None → RebutAnswers s j (evidence_view evidence.now) result) }
    ensures kept { kept journal.new ≡ kept journal.old }
    ensures reads { OnlyReads D.seen D.may_leave D.moment D.left_since disk.old disk.new }
    ensures faults { RebutCounts (D.faults disk.old) (D.faults disk.new) result }
{
    if covers(journal, evidence) {
        answer(alloc, journal, disk, evidence, seen)
    } else {
        Err(RebutFault::Uncovered)
    }
}

/// The answer by what one reading of the journal told.
fn judged<D: Disk>(
    alloc: Global,
    journal: &mut Journal,
    disk: &mut D,
    evidence: &Evidence<'_>,
    seen: Seen,
) -> Result<Rebuttal, RebutFault>
    requires fits { FitsEvidence (evidence_view evidence.now) }
    requires holds { Holds (evidence_view evidence.now) }
    ensures answers { OfState (D.seen disk.old) (kept journal.old) (λ s j. IsSeen s j (evidence_view evidence.now) seen → RebutAnswers s j (evidence_view evidence.now) result) }
    ensures kept { kept journal.new ≡ kept journal.old }
    ensures reads { OnlyReads D.seen D.may_leave D.moment D.left_since disk.old disk.new }
    ensures faults { RebutCounts (D.faults disk.old) (D.faults disk.new) result }
{
    match seen.fault {
        Some(number) => Err(RebutFault::Unreplayed(number)),
        None => covered(alloc, journal, disk, evidence, seen),
    }
}

/// Answers evidence that holds, for the owner of a journal of its key: the first authenticator that the journal has never signed,
/// else the first two texts of the journal and of the evidence that differ and have one hash.
pub fn rebut<D: Disk>(
    alloc: Global,
    journal: &mut Journal,
    disk: &mut D,
    evidence: &Evidence<'_>,
) -> Result<Rebuttal, RebutFault>
    requires fits { FitsEvidence (evidence_view evidence.now) }
    requires holds { Holds (evidence_view evidence.now) }
    ensures answers { OfState (D.seen disk.old) (kept journal.old) (λ s j. RebutAnswers s j (evidence_view evidence.now) result) }
    ensures kept { kept journal.new ≡ kept journal.old }
    ensures reads { OnlyReads D.seen D.may_leave D.moment D.left_since disk.old disk.new }
    ensures faults { RebutCounts (D.faults disk.old) (D.faults disk.new) result }
{
    match see(alloc, journal, disk, evidence) {
        Ok(Some(seen)) => judged(alloc, journal, disk, evidence, seen),
        // The header's head isn't one.
        Ok(None) => Err(RebutFault::Unreplayed(journal.first())),
        Err(fault) => Err(read_fault(fault)),
    }
}
