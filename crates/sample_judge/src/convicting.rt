//! The cheat is audited, and its evidence checked and answered.

ghost use Rattle.std.specs.Prelude.{◌≡◌, List, ℕ, Some, IfOk, map, string_bytes};
ghost use Rattle.avm_model.specs.Evidence.{FitsEvidence, evidence_bytes};
ghost use Rattle.avm_model.specs.Holds.{Stands};
ghost use Rattle.avm_model.specs.Keys.{public_of};
ghost use Rattle.avm_outside.specs.MemDisks.{disk_bytes};
ghost use Rattle.evid_file.specs.Short.{IsShort};
ghost use Rattle.evid_file.specs.Views.{evidence_view};
ghost use Rattle.journal_model.specs.Journal.{Is, journal_of};
ghost use Rattle.sample_lines.specs.Judging.{CheatEnds, EvidenceEnds, SegmentEnds, Subject, journal, key as key_of_subject};
ghost use Rattle.sample_model.specs.Start.{own_key};
ghost use Rattle.sample_judge.specs.Ends.{Ends, Says};

use crate::answering::answer;
use crate::cheating::{has_out, make_cheat};
use crate::ending::{Ending, add};
use crate::lines::{cheat_line, rebut_line, refused_line, stands_line};
use auditor::{audit, check, evidence_of};
use avm_num::NoMemory;
use avm_outside::{MemDisk, MemFiles};
use evid_file::{Evidence, write_evidence};
use lms_tree::LmsKey;
use log_entry::Frames;
use seg_file::read_segment;
use snap_state::read_head;
use std::alloc::Global;

/// The file of the evidence.
fn written(alloc: Global, evidence: &Evidence<'_>) -> Result<Vec<u8>, NoMemory>
    requires { IsShort (evidence_view evidence.now) }
    ensures { IfOk result (λ v. v.items ≡ evidence_bytes (evidence_view evidence.now)) }
{
    let mut files = MemFiles::new(alloc, Vec::new(alloc))?;
    let Ok(()) = write_evidence(&mut files, "evidence", evidence) else {
        return Err(NoMemory);
    };
    let Some(bytes) = files.bytes("evidence") else {
        return Err(NoMemory);
    };
    match Vec::from_slice(alloc, bytes) {
        Ok(bytes) => Ok(bytes),
        Err(_) => Err(NoMemory),
    }
}

/// Checks evidence that stands, and answers it by the store.
fn stand(
    alloc: Global,
    key: &[u8; 56],
    disk: &mut MemDisk,
    evidence: &Evidence<'_>,
    lines: Vec<String>,
) -> Result<Ending, NoMemory>
    requires fits { FitsEvidence (evidence_view evidence.now) }
    requires short { IsShort (evidence_view evidence.now) }
    requires stands { Stands key.now (evidence_bytes (evidence_view evidence.now)) }
    ensures { (x : Subject) (said : List (List ℕ)) → key.now ≡ key_of_subject x → journal_of (disk_bytes disk.old) ≡ Is (journal x) → Says (map string_bytes lines.items) said → IfOk result (Ends (EvidenceEnds x said (Some (evidence_view evidence.now)))) }
{
    let mut lines = lines;
    let bytes = written(alloc, evidence)?;
    if !check(alloc, key, &bytes)? {
        return Err(NoMemory);
    }
    add(&mut lines, stands_line(alloc))?;
    let judged = answer(alloc, disk, evidence)?;
    add(&mut lines, rebut_line(alloc, &judged))?;
    Ok(Ending { lines, status: 0 })
}

/// Audits the cheat, and goes on by its evidence.
fn convict(
    alloc: Global,
    key: &[u8; 56],
    disk: &mut MemDisk,
    segment: &[u8],
    auth: &[u8],
    lines: Vec<String>,
) -> Result<Ending, NoMemory>
    ensures { (x : Subject) (said : List (List ℕ)) → key.now ≡ key_of_subject x → journal_of (disk_bytes disk.old) ≡ Is (journal x) → Says (map string_bytes lines.items) said → IfOk result (Ends (CheatEnds x said segment.now auth.now)) }
{
    let mut lines = lines;
    let verdict = audit(alloc, key, segment, auth)?;
    add(&mut lines, cheat_line(alloc, verdict))?;
    match evidence_of(key, segment, auth, &verdict) {
        Some(evidence) => stand(alloc, key, disk, &evidence, lines),
        None => {
            add(&mut lines, refused_line(alloc))?;
            Ok(Ending { lines, status: 0 })
        }
    }
}

/// Makes the cheat of a segment, where it has an OUT, and convicts it.
pub fn judge_cheat(
    alloc: Global,
    key: &LmsKey,
    disk: &mut MemDisk,
    segment: &[u8],
    lines: Vec<String>,
) -> Result<Ending, NoMemory>
    requires { key.now.lms ≡ 6 }
    ensures { (x : Subject) (said : List (List ℕ)) → key.now ≡ own_key x.seed → journal_of (disk_bytes disk.old) ≡ Is (journal x) → Says (map string_bytes lines.items) said → IfOk result (Ends (SegmentEnds x said segment.now)) }
{
    let Some(parts) = read_segment(segment) else {
        return Err(NoMemory);
    };
    if !read_head(parts.head) {
        return Err(NoMemory);
    }
    if !has_out(Frames::new(parts.frames)) {
        return Ok(Ending { lines, status: 2 });
    }
    let cheat = make_cheat(alloc, key, &parts)?;
    convict(
        alloc,
        &key.public(),
        disk,
        &cheat.segment,
        &cheat.auth,
        lines,
    )
}
