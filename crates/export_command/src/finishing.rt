// The line of an answer, and its status.
ghost use Rattle.std.specs.Prelude.{◌≡◌, ◌⊎◌, ◌∷◌, [], Err, IfOk, List, ℕ, codes, string_bytes};
ghost use Rattle.command_parts.specs.Printing.{Printed, line};
ghost use Rattle.export_command.specs.Ends.{Answer};
ghost use Rattle.export_command.specs.Outcomes.{Asked, IsSaidOf, Says};
ghost use Rattle.journal_export.specs.declared.fault.ExportFault.TheVariants as fault;

use crate::lines::{damaged_line, journal_line};
use avm_outside::Sink;
use command_parts::print_last;
use journal_export::ExportFault;
use std::alloc::{AllocError, Global};

// Prints the line of a refusal, where there was memory for it.
fn print_refusal<S: Sink>(text: Result<String, AllocError>, out: &mut S) -> u8
    ensures { (words : List ℕ) → IfOk text (λ t. string_bytes t ≡ line words) → Printed (line words ∷ []) 2 (S.faults out.old) (S.faults out.new) (S.written out.old) (S.written out.new) result ⊎ Printed (line (codes "no memory") ∷ []) 5 (S.faults out.old) (S.faults out.new) (S.written out.old) (S.written out.new) result }
{
    match text {
        Ok(line) => print_last(out, line.as_bytes(), 2),
        Err(AllocError) => print_last(out, b"no memory\n", 5),
    }
}

/// Prints why nothing is exported, and gives the status. Only the lines of refusals with a number take memory.
pub fn refuse<S: Sink>(alloc: Global, fault: ExportFault, out: &mut S) -> u8
    ensures { (a : Asked) → (said : Answer) × IsSaidOf (Err fault) said × Says a said (S.faults out.old) (S.faults out.new) (S.written out.old) (S.written out.new) result }
{
    match fault {
        ExportFault::NoMemory => print_last(out, b"no memory\n", 5),
        ExportFault::DiskFault => print_last(out, b"fault disk\n", 4),
        ExportFault::FilesFault => print_last(out, b"fault files\n", 4),
        ExportFault::NoStore => print_last(out, b"refused nostore\n", 2),
        ExportFault::Range => print_last(out, b"refused range\n", 2),
        ExportFault::Damaged(place) => print_refusal(damaged_line(alloc, place), out),
        ExportFault::Unreplayed(number) => print_refusal(journal_line(alloc, number), out),
    }
}
