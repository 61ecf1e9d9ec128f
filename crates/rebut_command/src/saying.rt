// The command's lines, printed, and its status.
ghost use Rattle.std.specs.Prelude.{◌≡◌, ◌≢◌};
ghost use Rattle.command_parts.specs.Printing.{Printed};
ghost use Rattle.rebut_command.specs.Outcomes.{Outcome, IsOutcome, lines_of, status_of_outcome};

use crate::judging::Judged;
use avm_outside::Sink;
use command_parts::{Fault, print_last};
use std::alloc::{AllocError, Global};

// Prints an answer, or why there is none.
fn say_judged<S: Sink>(alloc: Global, judged: Judged, out: &mut S) -> u8
    ensures { (o : Outcome) × IsOutcome (Ok judged) o × Printed (lines_of o) (status_of_outcome o) (S.faults out.old) (S.faults out.new) (S.written out.old) (S.written out.new) result }
{
    match judged.text(alloc) {
        Ok(text) => print_last(out, text.as_bytes(), judged.status()),
        Err(AllocError) => print_last(out, b"no memory\n", 5),
    }
}

/// Prints the lines of what was judged, and gives the status.
pub fn say<S: Sink>(alloc: Global, judged: Result<Judged, Fault>, out: &mut S) -> u8
    requires { judged ≢ Err Fault.Sink }
    ensures { (o : Outcome) × IsOutcome judged o × Printed (lines_of o) (status_of_outcome o) (S.faults out.old) (S.faults out.new) (S.written out.old) (S.written out.new) result }
{
    match judged {
        Ok(judged) => say_judged(alloc, judged, out),
        Err(Fault::NoMemory) => print_last(out, b"no memory\n", 5),
        Err(Fault::Files) => print_last(out, b"fault files\n", 4),
        Err(Fault::Disk) => print_last(out, b"fault disk\n", 4),
        Err(Fault::Sink) => unreachable!(),
    }
}
