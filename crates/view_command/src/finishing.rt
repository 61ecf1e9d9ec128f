// The last line of a view, and its status.
ghost use Rattle.std.specs.Prelude.{◌≡◌, ◌≢◌};
ghost use Rattle.command_parts.specs.Printing.{Printed};
ghost use Rattle.view_command.specs.Outcomes.{Outcome, IsOutcome, last_lines, status_of_outcome};

use crate::End;
use avm_outside::Sink;
use command_parts::{Fault, print_last};
use std::alloc::{AllocError, Global};

// Prints why nothing is shown.
fn print_end<S: Sink>(alloc: Global, end: End, out: &mut S) -> u8
    requires { end ≢ End.Shown }
    ensures { (o : Outcome) × IsOutcome (Ok end) o × Printed (last_lines o) (status_of_outcome o) (S.faults out.old) (S.faults out.new) (S.written out.old) (S.written out.new) result }
{
    match end.line(alloc) {
        Ok(line) => print_last(out, line.as_bytes(), end.status()),
        Err(AllocError) => print_last(out, b"no memory\n", 5),
    }
}

/// Prints the last line, where there is one, and gives the status. A print that failed before has no last line.
pub fn finish<S: Sink>(alloc: Global, ended: Result<End, Fault>, out: &mut S) -> u8
    requires disk { ended ≢ Err Fault.Disk }
    ensures line { ended ≢ Err Fault.Sink → (o : Outcome) × IsOutcome ended o × Printed (last_lines o) (status_of_outcome o) (S.faults out.old) (S.faults out.new) (S.written out.old) (S.written out.new) result }
    ensures cut { ended ≡ Err Fault.Sink → (result ≡ 4) × (S.faults out.new ≡ S.faults out.old) × (S.written out.new ≡ S.written out.old) }
{
    match ended {
        Ok(End::Shown) => 0,
        Ok(end) => print_end(alloc, end, out),
        Err(Fault::NoMemory) => print_last(out, b"no memory\n", 5),
        Err(Fault::Files) => print_last(out, b"fault files\n", 4),
        Err(_) => 4,
    }
}
