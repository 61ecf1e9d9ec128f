// Prints lines.
ghost use Rattle.std.specs.Prelude.{◌≡◌, ◌∷◌, []};
ghost use Rattle.command_parts.specs.Printing.{PrintsAll, Printed};

use crate::Fault;
use avm_outside::{Failed, Sink};

/// Prints a line, which more may follow.
pub fn print_line<S: Sink>(out: &mut S, line: &[u8]) -> Result<(), Fault>
    ensures { PrintsAll (line.now ∷ []) result (S.faults out.old) (S.faults out.new) (S.written out.old) (S.written out.new) }
{
    match out.write(line) {
        Ok(()) => Ok(()),
        Err(Failed) => Err(Fault::Sink),
    }
}

/// Prints the last line, and gives the status, or 4 where that fails.
pub fn print_last<S: Sink>(out: &mut S, line: &[u8], status: u8) -> u8
    ensures { Printed (line.now ∷ []) status (S.faults out.old) (S.faults out.new) (S.written out.old) (S.written out.new) result }
{
    match out.write(line) {
        Ok(()) => status,
        Err(Failed) => 4,
    }
}
