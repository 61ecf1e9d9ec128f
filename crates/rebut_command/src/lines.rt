// The lines of an answer.
ghost use Rattle.std.specs.Prelude.{◌≡◌, ◌++◌, codes, IfOk, string_bytes};
ghost use Rattle.std.specs.List.{concat};
ghost use Rattle.command_parts.specs.Printing.{line};
ghost use Rattle.hex.specs.Hex.{encode_with, lower_digits};
ghost use Rattle.rebut_command.specs.Judging.{judged_view};
ghost use Rattle.rebut_command.specs.Lines.{answer_lines};
ghost use Rattle.rebut_command.specs.Outcomes.{judged_lines, judged_status};
ghost use Rattle.rebut_model.specs.Rebuts.{forged};
ghost use Rattle.rebuttal.specs.Answers.{answer_view};

use crate::judging::Judged;
use rebuttal::{Bytes, Rebuttal};
use std::alloc::{AllocError, Global};

// Bytes in lower-case hexadecimal digits, as a line.
fn hex_line(alloc: Global, bytes: &[u8]) -> Result<String, AllocError>
    ensures { IfOk result (λ t. string_bytes t ≡ line (encode_with lower_digits bytes.now)) }
{
    let text = hex::encode(alloc, bytes)?;
    format!(in alloc; "{text}\n")
}

// Two texts of one hash.
fn collision_text(alloc: Global, ours: &Bytes, theirs: &Bytes) -> Result<String, AllocError>
    ensures { IfOk result (λ t. string_bytes t ≡ line (codes "collision") ++ (line (encode_with lower_digits ours.now) ++ line (encode_with lower_digits theirs.now))) }
{
    let ours = hex_line(alloc, ours.as_slice())?;
    let theirs = hex_line(alloc, theirs.as_slice())?;
    format!(in alloc; "collision\n{ours}{theirs}")
}

// The number of an authenticator.
fn forged_text(alloc: Global, number: u32) -> Result<String, AllocError>
    ensures { IfOk result (λ t. string_bytes t ≡ concat (answer_lines (forged number))) }
{
    format!(in alloc; "forged {number}\n")
}

fn answer_text(alloc: Global, answer: &Rebuttal) -> Result<String, AllocError>
    ensures { IfOk result (λ t. string_bytes t ≡ concat (answer_lines (answer_view answer.now))) }
{
    match answer {
        Rebuttal::Forged(number) => forged_text(alloc, *number),
        Rebuttal::Collision(ours, theirs) => collision_text(alloc, ours, theirs),
    }
}

impl Judged {
    /// The lines.
    pub fn text(&self, alloc: Global) -> Result<String, AllocError>
        ensures { IfOk result (λ t. string_bytes t ≡ concat (judged_lines (judged_view self.now))) }
    {
        match self {
            Judged::Refused(refusal) => refusal.line(alloc),
            Judged::Answered(answer) => answer_text(alloc, answer),
        }
    }

    /// 0 answered; 2 refused by content; 3 the evidence's file refused.
    pub fn status(&self) -> u8
        ensures { result ≡ judged_status (judged_view self.now) }
    {
        match self {
            Judged::Refused(refusal) => refusal.status(),
            Judged::Answered(_) => 0,
        }
    }
}
