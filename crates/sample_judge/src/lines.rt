//! The lines of a sample.

ghost use Rattle.std.specs.Prelude.{◌≡◌, ◌++◌, codes, IfOk, string_bytes};
ghost use Rattle.std.specs.Fmt.{decimal};
ghost use Rattle.audit_command.specs.Ends.{text_of_verdict};
ghost use Rattle.command_parts.specs.Printing.{line};
ghost use Rattle.rebut_command.specs.Judging.{judged_view};
ghost use Rattle.rebuttal.specs.Answers.{answer_view};
ghost use Rattle.sample_lines.specs.Judging.{answer_word, cheat_line as cheat_text, rebut_line as rebut_text, seed_line as seed_text, segment_line as segment_text, verdict_word};
ghost use Rattle.rebut_command.specs.Judging.{answered};
ghost use Rattle.sample_judge.specs.Ends.{numbers_text};

use audit_command::End;
use avm_model::Verdict;
use rebut_command::Judged;
use rebuttal::Rebuttal;
use std::alloc::{AllocError, Global};

/// The seed.
pub fn seed_line(alloc: Global, seed: u64) -> Result<String, AllocError>
    ensures { IfOk result (λ t. string_bytes t ≡ line (seed_text seed)) }
{
    format!(in alloc; "sample seed {seed}\n")
}

/// The last entry's number, how many SNAP entries there are, how many leaves are used, and how many steps were made.
pub fn numbers_line(
    alloc: Global,
    last: u64,
    snaps: u64,
    leaves: u64,
    steps: u64,
) -> Result<String, AllocError>
    ensures { IfOk result (λ t. string_bytes t ≡ line (numbers_text last snaps leaves steps)) }
{
    format!(in alloc; "entries {last} snaps {snaps} leaves {leaves} steps {steps}\n")
}

/// A verdict on a segment, as an audit prints it.
fn other_line(alloc: Global, number: u64, verdict: Verdict) -> Result<String, AllocError>
    ensures { IfOk result (λ t. string_bytes t ≡ line (codes "segment " ++ (decimal number ++ (codes " " ++ text_of_verdict verdict)))) }
{
    let end = End::Judged(verdict);
    format!(in alloc; "segment {number} {end}\n")
}

/// The verdict on a segment; of an accepted one the word alone.
pub fn segment_line(alloc: Global, number: u64, verdict: Verdict) -> Result<String, AllocError>
    ensures { IfOk result (λ t. string_bytes t ≡ line (segment_text number verdict)) }
{
    match verdict {
        Verdict::Accepted { .. } => format!(in alloc; "segment {number} accepted\n"),
        _ => other_line(alloc, number, verdict),
    }
}

/// The verdict on the cheat.
pub fn cheat_line(alloc: Global, verdict: Verdict) -> Result<String, AllocError>
    ensures { IfOk result (λ t. string_bytes t ≡ line (cheat_text verdict)) }
{
    let end = End::Judged(verdict);
    format!(in alloc; "cheat {end}\n")
}

/// The evidence of the cheat stands.
pub fn stands_line(alloc: Global) -> Result<String, AllocError>
    ensures { IfOk result (λ t. string_bytes t ≡ line (codes "check stands")) }
{
    format!(in alloc; "check stands\n")
}

/// The cheat has no evidence.
pub fn refused_line(alloc: Global) -> Result<String, AllocError>
    ensures { IfOk result (λ t. string_bytes t ≡ line (codes "check refused")) }
{
    format!(in alloc; "check refused\n")
}

fn answer_line(alloc: Global, answer: &Rebuttal) -> Result<String, AllocError>
    ensures { IfOk result (λ t. string_bytes t ≡ line (rebut_text (answered (answer_view answer.now)))) }
{
    match answer {
        Rebuttal::Forged(number) => format!(in alloc; "rebut forged {number}\n"),
        Rebuttal::Collision(_, _) => format!(in alloc; "rebut collision\n"),
    }
}

/// The answer to the evidence; of a collision the word alone.
pub fn rebut_line(alloc: Global, judged: &Judged) -> Result<String, AllocError>
    ensures { IfOk result (λ t. string_bytes t ≡ line (rebut_text (judged_view judged.now))) }
{
    match judged {
        Judged::Refused(refusal) => format!(in alloc; "rebut {refusal}\n"),
        Judged::Answered(answer) => answer_line(alloc, answer),
    }
}
