// Prints the line of a command, and gives its status.
ghost use Rattle.std.specs.Prelude.{◌≡◌, ◌≢◌, ◌∷◌, [], IfOk};
ghost use Rattle.command_parts.specs.Printing.{line, Printed};
ghost use Rattle.hss_command.specs.Outcomes.{Outcome, IsOutcome, text_of_outcome, status_of_outcome};
ghost use Rattle.hss_command.specs.Said.{IsSaid};

use crate::said::Said;
use avm_outside::Sink;
use command_parts::{Fault, print_last};

/// Prints the line, and gives the status.
pub fn finish<S: Sink>(ended: Result<Said, Fault>, out: &mut S) -> u8
    requires sink { ended ≢ Err Fault.Sink }
    requires said { IfOk ended IsSaid }
    ensures { (o : Outcome) × IsOutcome ended o × Printed (line (text_of_outcome o) ∷ []) (status_of_outcome o) (S.faults out.old) (S.faults out.new) (S.written out.old) (S.written out.new) result }
{
    match ended {
        Ok(said) => print_last(out, said.line.as_bytes(), said.end.status()),
        Err(Fault::NoMemory) => print_last(out, b"no memory\n", 5),
        Err(Fault::Files) => print_last(out, b"fault files\n", 4),
        Err(_) => print_last(out, b"fault disk\n", 4),
    }
}
