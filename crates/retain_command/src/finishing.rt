// The line of an answer, and its status.
ghost use Rattle.std.specs.Prelude.{◌≡◌, ◌⊎◌, ◌∷◌, [], Err, IfOk, List, ℕ, codes, string_bytes};
ghost use Rattle.command_parts.specs.Printing.{Printed, line};
ghost use Rattle.retain_command.specs.Ends.{Answer};
ghost use Rattle.retain_command.specs.Outcomes.{IsSaidOf, Says};
ghost use Rattle.store_move.specs.declared.fault.RetainFault.TheVariants as fault;

use crate::lines::{damaged_line, journal_line};
use avm_outside::Sink;
use command_parts::print_last;
use std::alloc::{AllocError, Global};
use store_move::RetainFault;

// Prints the line of a refusal, where there was memory for it.
fn print_refusal<S: Sink>(text: Result<String, AllocError>, out: &mut S) -> u8
    ensures { (words : List ℕ) → IfOk text (λ t. string_bytes t ≡ line words) → Printed (line words ∷ []) 2 (S.faults out.old) (S.faults out.new) (S.written out.old) (S.written out.new) result ⊎ Printed (line (codes "no memory") ∷ []) 5 (S.faults out.old) (S.faults out.new) (S.written out.old) (S.written out.new) result }
{
    match text {
        Ok(line) => print_last(out, line.as_bytes(), 2),
        Err(AllocError) => print_last(out, b"no memory\n", 5),
    }
}

/// Prints why nothing is retained, and gives the status. Only the lines of refusals with a number take memory.
pub fn refuse<S: Sink>(alloc: Global, fault: RetainFault, out: &mut S) -> u8
    ensures { (at : ℕ) → (said : Answer) × IsSaidOf (Err fault) said × Says at said (S.faults out.old) (S.faults out.new) (S.written out.old) (S.written out.new) result }
{
    match fault {
        RetainFault::NoMemory => print_last(out, b"no memory\n", 5),
        RetainFault::DiskFault => print_last(out, b"fault disk\n", 4),
        RetainFault::SpareFault => print_last(out, b"fault spare\n", 4),
        RetainFault::NoStore => print_last(out, b"refused nostore\n", 2),
        RetainFault::Range => print_last(out, b"refused range\n", 2),
        RetainFault::NotEmpty => print_last(out, b"refused notempty\n", 2),
        RetainFault::OtherSpare => print_last(out, b"refused spare\n", 2),
        RetainFault::Full => print_last(out, b"refused full\n", 2),
        RetainFault::Damaged(place) => print_refusal(damaged_line(alloc, place), out),
        RetainFault::Unreplayed(number) => print_refusal(journal_line(alloc, number), out),
    }
}
