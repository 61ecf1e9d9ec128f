// The command that judges a segment.
ghost use Rattle.std.specs.Prelude.{◌≡◌, ◌≢◌, ◌⊎◌, ℕ, List, Option, IfOk, IsErrOf, OnOk, OnErr, Some, option_map};
ghost use Rattle.avm_model.specs.Audit.{judged_of};
ghost use Rattle.avm_model.specs.Evidence.{EvidData, evidence_bytes};
ghost use Rattle.avm_model.specs.Segment.{whole_segment_of};
ghost use Rattle.avm_outside.specs.Outside.{Rises, Counts};
ghost use Rattle.avm_script.specs.Job.{SignedData};
ghost use Rattle.avm_script.specs.View.{signed_view, text_view};
ghost use Rattle.command_parts.specs.FileMap.{SameFiles};
ghost use Rattle.evid_file.specs.Pieces.{LeavesFront};
ghost use Rattle.file_audit.specs.Audited.{Begins, IsJudged};
ghost use Rattle.audit_command.specs.Audit.{IsNoneOf, PlainEnds, SignedEnds, EvidenceCut, AuditEnds, AuditLeaves, audit_writes, LeavesEvidence, JudgedEnd, JudgedCut, TailEnds, TailCut, evidence_for};
ghost use Rattle.audit_command.specs.Inputs.{image_bytes};
ghost use Rattle.audit_command.specs.Meaning.{AuditMeans, IsAcceptedLater};
ghost use Rattle.audit_command.specs.Outcomes.{AuditRuns};
ghost use Rattle.audit_command.specs.Said.{IsSaid};

use crate::inputs::{Inputs, read_beside, read_inputs};
use crate::judging::end_of;
use crate::said::{Said, print_said, say};
use crate::{End, FileOption};
use auditor::evidence_of;
use avm_model::Verdict;
use avm_outside::{Failed, Files, Sink};
use avm_script::Signed;
use evid_file::write_evidence;
use file_audit::{Audited, Fault, audit_file};
use std::alloc::Global;

fn plain_end<F: Files>(
    alloc: Global,
    files: &mut F,
    segment: &str,
    image: Option<&str>,
) -> Result<End, Fault>
    ensures ends { IfOk result (λ end. PlainEnds segment.now (text_view image.entry) (F.file files.old) end) }
    ensures same { (n : List ℕ) → F.file files.new n ≡ F.file files.old n }
    ensures fault { IsErrOf result Fault.Files → Rises (F.faults files.old) (F.faults files.new) }
    ensures no_fault { result ≢ Err Fault.Files → F.faults files.new ≡ F.faults files.old }
{
    let beside = match read_beside(alloc, files, image)? {
        Ok(beside) => beside,
        Err(option) => return Ok(End::RefusedFile(option)),
    };
    match audit_file(alloc, files, segment, &[0; 56], &[], beside.bytes(), false)? {
        Some(audited) => Ok(end_of(&audited)),
        None => Ok(End::RefusedFile(FileOption::Segment)),
    }
}

// Reads an image, where one is named, and judges a segment without authenticators.
fn audit_plain<F: Files>(
    alloc: Global,
    files: &mut F,
    segment: &str,
    image: Option<&str>,
) -> Result<Said, Fault>
    ensures ends { IfOk result (λ s. PlainEnds segment.now (text_view image.entry) (F.file files.old) s.end) }
    ensures line { IfOk result IsSaid }
    ensures same { (n : List ℕ) → F.file files.new n ≡ F.file files.old n }
    ensures fault { IsErrOf result Fault.Files → Rises (F.faults files.old) (F.faults files.new) }
    ensures no_fault { result ≢ Err Fault.Files → F.faults files.new ≡ F.faults files.old }
{
    let end = plain_end(alloc, files, segment, image)?;
    say(alloc, end)
}

// Writes the evidence for a verdict, where there is some.
fn leave_evidence<F: Files>(
    files: &mut F,
    name: &str,
    key: &[u8; 56],
    segment: &[u8],
    auths: &[u8],
    verdict: &Verdict,
) -> Result<(), Failed>
    requires { IsJudged key.now segment.now auths.now verdict.now }
    ensures written { OnOk result (LeavesEvidence key.now verdict.now (evidence_for key.now (judged_of segment.now auths.now) verdict.now) (F.file files.old name.now) (F.file files.new name.now)) }
    ensures failed { OnErr result ((e : EvidData) × (evidence_for key.now (judged_of segment.now auths.now) verdict.now ≡ Some e) × LeavesFront (evidence_bytes e) (F.file files.old name.now) (F.file files.new name.now)) }
    ensures others { (n : List ℕ) → n ≢ name.now → F.file files.new n ≡ F.file files.old n }
    ensures faults { Counts (F.faults files.old) (F.faults files.new) result }
{
    match evidence_of(key, segment, auths, verdict) {
        Some(evidence) => write_evidence(files, name, &evidence),
        None => Ok(()),
    }
}

// Gives the verdict, and writes the evidence for it where there is some.
fn settle<F: Files>(
    alloc: Global,
    files: &mut F,
    name: &str,
    inputs: &Inputs,
    audited: &Audited,
) -> Result<Said, Fault>
    requires { IsJudged inputs.now.key audited.now.kept.items inputs.now.auths.items audited.now.verdict }
    ensures ends { (image : Option (List ℕ)) → Begins image (whole_segment_of audited.now.kept.items) audited.now.begins → IfOk result (λ s. JudgedEnd inputs.now.key audited.now.kept.items inputs.now.auths.items image (F.file files.old name.now) (F.file files.new name.now) s.end) }
    ensures line { IfOk result IsSaid }
    ensures left { IsErrOf result Fault.Files → JudgedCut inputs.now.key audited.now.kept.items inputs.now.auths.items (F.file files.old name.now) (F.file files.new name.now) }
    ensures no_memory { IsErrOf result Fault.NoMemory → SameFiles (F.file files.old) (F.file files.new) }
    ensures others { (n : List ℕ) → n ≢ name.now → F.file files.new n ≡ F.file files.old n }
    ensures fault { IsErrOf result Fault.Files → Rises (F.faults files.old) (F.faults files.new) }
    ensures no_fault { result ≢ Err Fault.Files → F.faults files.new ≡ F.faults files.old }
{
    let said = say(alloc, end_of(audited))?;
    leave_evidence(
        files,
        name,
        &inputs.key,
        &audited.kept,
        &inputs.auths,
        &audited.verdict,
    )?;
    Ok(said)
}

// Judges a segment's file beside its inputs.
fn judge_beside<F: Files>(
    alloc: Global,
    files: &mut F,
    segment: &str,
    name: &str,
    inputs: &Inputs,
) -> Result<Said, Fault>
    ensures ends { IfOk result (λ s. TailEnds inputs.now.key inputs.now.auths.items (image_bytes inputs.now.beside) (F.file files.old segment.now) (F.file files.old name.now) (F.file files.new name.now) s.end) }
    ensures line { IfOk result IsSaid }
    ensures left { IsErrOf result Fault.Files → TailCut inputs.now.key inputs.now.auths.items (F.file files.old segment.now) (F.file files.old name.now) (F.file files.new name.now) }
    ensures no_memory { IsErrOf result Fault.NoMemory → SameFiles (F.file files.old) (F.file files.new) }
    ensures others { (n : List ℕ) → n ≢ name.now → F.file files.new n ≡ F.file files.old n }
    ensures fault { IsErrOf result Fault.Files → Rises (F.faults files.old) (F.faults files.new) }
    ensures no_fault { result ≢ Err Fault.Files → F.faults files.new ≡ F.faults files.old }
{
    match audit_file(
        alloc,
        files,
        segment,
        &inputs.key,
        &inputs.auths,
        inputs.beside.bytes(),
        true,
    )? {
        Some(audited) => settle(alloc, files, name, inputs, &audited),
        None => say(alloc, End::RefusedFile(FileOption::Segment)),
    }
}

// Reads an image where one is named, a public key and authenticators, judges a segment, and writes the evidence where the
// verdict has some.
fn audit_signed<F: Files>(
    alloc: Global,
    files: &mut F,
    segment: &str,
    image: Option<&str>,
    signed: &Signed<'_>,
) -> Result<Said, Fault>
    ensures ends { IfOk result (λ s. SignedEnds segment.now (text_view image.entry) (signed_view signed.now) (F.file files.old) (F.file files.new) s.end) }
    ensures line { IfOk result IsSaid }
    ensures left { IsErrOf result Fault.Files → EvidenceCut segment.now (text_view image.entry) (signed_view signed.now) (F.file files.old) (F.file files.new) }
    ensures no_memory { IsErrOf result Fault.NoMemory → SameFiles (F.file files.old) (F.file files.new) }
    ensures others { (n : List ℕ) → n ≢ signed.now.evidence.now → F.file files.new n ≡ F.file files.old n }
    ensures fault { IsErrOf result Fault.Files → Rises (F.faults files.old) (F.faults files.new) }
    ensures no_fault { result ≢ Err Fault.Files → F.faults files.new ≡ F.faults files.old }
{
    match read_inputs(alloc, files, image, signed)? {
        Ok(inputs) => judge_beside(alloc, files, segment, signed.evidence, &inputs),
        Err(option) => say(alloc, End::RefusedFile(option)),
    }
}

// Judges a segment, and makes the line.
fn audited<F: Files>(
    alloc: Global,
    files: &mut F,
    segment: &str,
    image: Option<&str>,
    signed: Option<Signed<'_>>,
) -> Result<Said, Fault>
    ensures ends { IfOk result (λ s. AuditEnds segment.now (text_view image.entry) (option_map signed_view signed.entry) (F.file files.old) (F.file files.new) s.end) }
    ensures line { IfOk result IsSaid }
    ensures left { IsErrOf result Fault.Files → AuditLeaves segment.now (text_view image.entry) (option_map signed_view signed.entry) (F.file files.old) (F.file files.new) }
    ensures no_memory { IsErrOf result Fault.NoMemory → SameFiles (F.file files.old) (F.file files.new) }
    ensures others { (n : List ℕ) → IsNoneOf (audit_writes (option_map signed_view signed.entry)) n → F.file files.new n ≡ F.file files.old n }
    ensures fault { IsErrOf result Fault.Files → Rises (F.faults files.old) (F.faults files.new) }
    ensures no_fault { result ≢ Err Fault.Files → F.faults files.new ≡ F.faults files.old }
{
    match signed {
        Some(signed) => audit_signed(alloc, files, segment, image, &signed),
        None => audit_plain(alloc, files, segment, image),
    }
}

// Judges a segment, and prints the line.
fn audit_printed<F: Files, S: Sink>(
    alloc: Global,
    files: &mut F,
    segment: &str,
    image: Option<&str>,
    signed: Option<Signed<'_>>,
    out: &mut S,
) -> u8
    ensures ends { AuditRuns segment.now (text_view image.entry) (option_map signed_view signed.entry) (F.file files.old) (F.file files.new) (F.faults files.old) (F.faults files.new) (S.faults out.old) (S.faults out.new) (S.written out.old) (S.written out.new) result }
    ensures files { (n : List ℕ) → IsNoneOf (audit_writes (option_map signed_view signed.entry)) n → F.file files.new n ≡ F.file files.old n }
{
    let said = audited(alloc, files, segment, image, signed);
    print_said(said, out)
}

/// Judges a segment, with authenticators where a key is given and beside an image where one is named, and writes evidence of
/// a fault that the authenticators cover. The status: 0 accepted; 1 a fault was found and evidence is written; 2 refused by
/// content; 3 an input file refused; 4 a fault of the outside; 5 want of memory.
pub fn audit<F: Files, S: Sink>(
    alloc: Global,
    files: &mut F,
    segment: &str,
    image: Option<&str>,
    signed: Option<Signed<'_>>,
    out: &mut S,
) -> u8
    ensures ends { AuditRuns segment.now (text_view image.entry) (option_map signed_view signed.entry) (F.file files.old) (F.file files.new) (F.faults files.old) (F.faults files.new) (S.faults out.old) (S.faults out.new) (S.written out.old) (S.written out.new) result }
    ensures means { AuditMeans segment.now (text_view image.entry) (option_map signed_view signed.entry) (F.file files.old) (F.file files.new) (S.written out.old) (S.written out.new) result }
    // what it writes, a check of its key accepts
    ensures evidence { (names : SignedData) → option_map signed_view signed.entry ≡ Some names → names.key ≢ names.evidence → result ≡ 1 → IsAcceptedLater names (F.file files.old) (F.file files.new) }
    ensures files { (n : List ℕ) → IsNoneOf (audit_writes (option_map signed_view signed.entry)) n → F.file files.new n ≡ F.file files.old n }
    ensures four { result ≡ 4 → Rises (F.faults files.old) (F.faults files.new) ⊎ Rises (S.faults out.old) (S.faults out.new) }
    ensures not_four { result ≢ 4 → (F.faults files.new ≡ F.faults files.old) × (S.faults out.new ≡ S.faults out.old) }
{
    audit_printed(alloc, files, segment, image, signed, out)
}
