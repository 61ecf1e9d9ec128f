// The line of formatting, and its status.
ghost use Rattle.std.specs.Prelude.{◌≡◌, ◌≢◌, ◌∷◌, []};
ghost use Rattle.command_parts.specs.Printing.{Printed, line as line_of};
ghost use Rattle.format_command.specs.Ends.{text_of};
ghost use Rattle.format_command.specs.Outcomes.{Outcome, IsOutcome, text_of_outcome, status_of_outcome};

use crate::{End, FileOption};
use avm_outside::Sink;
use command_parts::{Fault, print_last};

/// The line of an end, with its byte 10.
fn line_of_end(end: End) -> &'static [u8]
    ensures { result.now ≡ line_of (text_of end) }
{
    match end {
        End::StoreMade => b"store made\n",
        End::RefusedFile(FileOption::Key) => b"refused file --key\n",
        End::RefusedFile(FileOption::Config) => b"refused file --config\n",
        End::RefusedFile(FileOption::Image) => b"refused file --image\n",
        End::RefusedNotEmpty => b"refused notempty\n",
    }
}

/// Prints the line, and gives the status. It takes no memory, so that none is missed once the store is made.
pub fn finish<S: Sink>(ended: Result<End, Fault>, out: &mut S) -> u8
    requires sink { ended ≢ Err Fault.Sink }
    ensures { (o : Outcome) × IsOutcome ended o × Printed (line_of (text_of_outcome o) ∷ []) (status_of_outcome o) (S.faults out.old) (S.faults out.new) (S.written out.old) (S.written out.new) result }
{
    match ended {
        Ok(end) => print_last(out, line_of_end(end), end.status()),
        Err(Fault::NoMemory) => print_last(out, b"no memory\n", 5),
        Err(Fault::Files) => print_last(out, b"fault files\n", 4),
        Err(_) => print_last(out, b"fault disk\n", 4),
    }
}
