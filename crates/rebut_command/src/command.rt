//! The command.

ghost use Rattle.std.specs.Prelude.{◌≡◌, ◌≢◌, ◌⊎◌, ◌≤◌, ℕ, List, Ok};
ghost use Rattle.avm_model.specs.Evidence.{evidence_at};
ghost use Rattle.avm_outside.specs.Outside.{Rises};
ghost use Rattle.command_parts.specs.Printing.{Printed};
ghost use Rattle.rebut_command.specs.Meaning.{RebutMeans};
ghost use Rattle.rebut_command.specs.Outcomes.{Outcome, RebutEnds, IsOutcome, BytesReach, CountsDisk, counted, lines_of, status_of_outcome};
ghost use Rattle.rebut_command.specs.declared.judging.Judged.TheVariants as judged;
ghost use Rattle.rebut_command.specs.declared.refusal.Refusal.TheVariants as refusal;
ghost use Rattle.rebut_pass.specs.Reads.{OnlyReads};

use crate::evidence::read_bytes;
use crate::judging::{Judged, judge_bytes};
use crate::refusal::Refusal;
use crate::saying::say;
use avm_outside::{Disk, Files, Sink};
use std::alloc::Global;

// Judges bytes by the store, and prints the answer.
fn answer_bytes<D: Disk, S: Sink>(alloc: Global, disk: &mut D, bytes: &[u8], out: &mut S) -> u8
    ensures said { (o : Outcome) × BytesReach (evidence_at bytes.now) (D.seen disk.old) o × CountsDisk o (D.faults disk.old) (D.faults disk.new) × Printed (lines_of o) (status_of_outcome o) (S.faults out.old) (S.faults out.new) (S.written out.old) (S.written out.new) result }
    ensures reads { OnlyReads D.seen D.may_leave D.moment D.left_since disk.old disk.new }
{
    let judged = judge_bytes(alloc, disk, bytes);
    say(alloc, judged, out)
}

// Says that the evidence's file isn't there.
fn say_missing<S: Sink>(alloc: Global, out: &mut S) -> u8
    ensures { (o : Outcome) × IsOutcome (Ok (judged.Refused refusal.File)) o × Printed (lines_of o) (status_of_outcome o) (S.faults out.old) (S.faults out.new) (S.written out.old) (S.written out.new) result }
{
    say(alloc, Ok(Judged::Refused(Refusal::File)), out)
}

// Reads the evidence, judges it by the store, and prints the answer.
fn answered<D: Disk, F: Files, S: Sink>(
    alloc: Global,
    disk: &mut D,
    files: &mut F,
    evidence: &str,
    out: &mut S,
) -> u8
    ensures ends { RebutEnds (F.file files.old evidence.now) (D.seen disk.old) (counted (F.faults files.old) (F.faults files.new)) (counted (D.faults disk.old) (D.faults disk.new)) (counted (S.faults out.old) (S.faults out.new)) (S.written out.old) (S.written out.new) result }
    ensures files { (n : List ℕ) → F.file files.new n ≡ F.file files.old n }
    ensures reads { OnlyReads D.seen D.may_leave D.moment D.left_since disk.old disk.new }
{
    match read_bytes(alloc, files, evidence) {
        Ok(Some(bytes)) => answer_bytes(alloc, disk, &bytes, out),
        Ok(None) => say_missing(alloc, out),
        Err(fault) => say(alloc, Err(fault), out),
    }
}

/// Answers evidence, for the owner of the store on a disk. The status: 0 answered; 2 refused by content; 3 the evidence's file isn't
/// there; 4 a fault of the outside; 5 want of memory.
pub fn rebut<D: Disk, F: Files, S: Sink>(
    alloc: Global,
    disk: &mut D,
    files: &mut F,
    evidence: &str,
    out: &mut S,
) -> u8
    ensures ends { RebutEnds (F.file files.old evidence.now) (D.seen disk.old) (counted (F.faults files.old) (F.faults files.new)) (counted (D.faults disk.old) (D.faults disk.new)) (counted (S.faults out.old) (S.faults out.new)) (S.written out.old) (S.written out.new) result }
    ensures means { RebutMeans (F.file files.old evidence.now) (D.seen disk.old) (S.written out.old) (S.written out.new) result }
    ensures files { (n : List ℕ) → F.file files.new n ≡ F.file files.old n }
    ensures same { D.seen disk.new ≡ D.seen disk.old }
    ensures crash { (c : List ℕ) → D.may_leave disk.new c → D.may_leave disk.old c }
    ensures later { D.moment disk.old ≤ D.moment disk.new }
    ensures moments { (t : ℕ) (c : List ℕ) → t ≤ D.moment disk.old → D.left_since disk.new t c → D.left_since disk.old t c }
    ensures four { result ≡ 4 → Rises (F.faults files.old) (F.faults files.new) ⊎ Rises (D.faults disk.old) (D.faults disk.new) ⊎ Rises (S.faults out.old) (S.faults out.new) }
    ensures not_four { result ≢ 4 → (F.faults files.new ≡ F.faults files.old) × (D.faults disk.new ≡ D.faults disk.old) × (S.faults out.new ≡ S.faults out.old) }
{
    answered(alloc, disk, files, evidence, out)
}
