// The last line of recording, and its status.
ghost use Rattle.std.specs.Prelude.{◌≡◌, ◌≢◌};
ghost use Rattle.command_parts.specs.Printing.{Printed};
ghost use Rattle.record_command.specs.Outcomes.{Outcome, IsOutcome, last_lines, status_of_outcome};

use crate::End;
use crate::lines::line_of_end;
use avm_outside::Sink;
use command_parts::{Fault, print_last};

/// Prints the last line, and gives the status. Behind a print that failed nothing is printed.
pub fn finish<S: Sink>(ended: Result<End, Fault>, out: &mut S) -> u8
    ensures line { ended ≢ Err Fault.Sink → (o : Outcome) × IsOutcome ended o × Printed (last_lines o) (status_of_outcome o) (S.faults out.old) (S.faults out.new) (S.written out.old) (S.written out.new) result }
    ensures cut { ended ≡ Err Fault.Sink → (result ≡ 4) × (S.faults out.new ≡ S.faults out.old) × (S.written out.new ≡ S.written out.old) }
{
    match ended {
        Ok(end) => print_last(out, line_of_end(end).as_bytes(), end.status()),
        Err(Fault::NoMemory) => print_last(out, b"no memory\n", 5),
        Err(Fault::Files) => print_last(out, b"fault files\n", 4),
        Err(Fault::Disk) => print_last(out, b"fault disk\n", 4),
        Err(Fault::Sink) => 4,
    }
}
