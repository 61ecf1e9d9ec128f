// The command that judges evidence.
ghost use Rattle.std.specs.Prelude.{◌≡◌, ◌≢◌, ◌⊎◌, ℕ, List, IfOk, IsErrOf};
ghost use Rattle.avm_outside.specs.Outside.{Rises};
ghost use Rattle.audit_command.specs.Check.{CheckEnds};
ghost use Rattle.audit_command.specs.Meaning.{CheckMeans};
ghost use Rattle.audit_command.specs.Outcomes.{CheckRuns};
ghost use Rattle.audit_command.specs.Said.{IsSaid};

use crate::judging::judge_evidence;
use crate::key_file::read_public_key;
use crate::limits::read_evidence;
use crate::said::{Said, print_said, say};
use crate::{End, FileOption};
use avm_outside::{Files, Sink};
use file_audit::Fault;
use std::alloc::Global;

fn check_end<F: Files>(
    alloc: Global,
    files: &mut F,
    key: &str,
    evidence: &str,
) -> Result<End, Fault>
    ensures ends { IfOk result (λ end. CheckEnds key.now evidence.now (F.file files.old) end) }
    ensures same { (n : List ℕ) → F.file files.new n ≡ F.file files.old n }
    ensures fault { IsErrOf result Fault.Files → Rises (F.faults files.old) (F.faults files.new) }
    ensures no_fault { result ≢ Err Fault.Files → F.faults files.new ≡ F.faults files.old }
{
    let Some(key) = read_public_key(alloc, files, key)? else {
        return Ok(End::RefusedFile(FileOption::Key));
    };
    let Some(bytes) = read_evidence(alloc, files, evidence)? else {
        return Ok(End::RefusedFile(FileOption::Evidence));
    };
    judge_evidence(alloc, &key, &bytes)
}

// Judges evidence, and makes the line.
fn checked<F: Files>(alloc: Global, files: &mut F, key: &str, evidence: &str) -> Result<Said, Fault>
    ensures ends { IfOk result (λ s. CheckEnds key.now evidence.now (F.file files.old) s.end) }
    ensures line { IfOk result IsSaid }
    ensures same { (n : List ℕ) → F.file files.new n ≡ F.file files.old n }
    ensures fault { IsErrOf result Fault.Files → Rises (F.faults files.old) (F.faults files.new) }
    ensures no_fault { result ≢ Err Fault.Files → F.faults files.new ≡ F.faults files.old }
{
    let end = check_end(alloc, files, key, evidence)?;
    say(alloc, end)
}

// Judges evidence, and prints the line.
fn check_printed<F: Files, S: Sink>(
    alloc: Global,
    files: &mut F,
    key: &str,
    evidence: &str,
    out: &mut S,
) -> u8
    ensures ends { CheckRuns key.now evidence.now (F.file files.old) (F.file files.new) (F.faults files.old) (F.faults files.new) (S.faults out.old) (S.faults out.new) (S.written out.old) (S.written out.new) result }
    ensures files { (n : List ℕ) → F.file files.new n ≡ F.file files.old n }
{
    let said = checked(alloc, files, key, evidence);
    print_said(said, out)
}

/// Reads a public key and evidence, in this order, and judges the evidence. The status: 0 it stands; 2 refused by content; 3 an
/// input file refused; 4 a fault of the outside; 5 want of memory.
pub fn check<F: Files, S: Sink>(
    alloc: Global,
    files: &mut F,
    key: &str,
    evidence: &str,
    out: &mut S,
) -> u8
    ensures ends { CheckRuns key.now evidence.now (F.file files.old) (F.file files.new) (F.faults files.old) (F.faults files.new) (S.faults out.old) (S.faults out.new) (S.written out.old) (S.written out.new) result }
    ensures means { CheckMeans key.now evidence.now (F.file files.old) result }
    ensures files { (n : List ℕ) → F.file files.new n ≡ F.file files.old n }
    ensures four { result ≡ 4 → Rises (F.faults files.old) (F.faults files.new) ⊎ Rises (S.faults out.old) (S.faults out.new) }
    ensures not_four { result ≢ 4 → (F.faults files.new ≡ F.faults files.old) × (S.faults out.new ≡ S.faults out.old) }
{
    check_printed(alloc, files, key, evidence, out)
}
