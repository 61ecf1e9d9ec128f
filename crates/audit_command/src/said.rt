// An end with its line.
ghost use Rattle.std.specs.Prelude.{◌≡◌, ◌≢◌, ◌∷◌, [], IfOk, IsErrOf, codes, string_bytes};
ghost use Rattle.command_parts.specs.Printing.{line as line_of, Printed};
ghost use Rattle.audit_command.specs.Ends.{status_of, text_of};
ghost use Rattle.audit_command.specs.Said.{IsSaid};

use crate::End;
use avm_outside::Sink;
use command_parts::print_last;
use file_audit::Fault;
use std::alloc::{AllocError, Global};

/// An end, and the line that is printed for it.
#[derive(Drop)]
pub struct Said {
    pub end: End,
    pub line: String,
}

fn line(alloc: Global, end: &End) -> Result<String, AllocError>
    ensures { IfOk result (λ t. string_bytes t ≡ line_of (text_of end.now)) }
{
    format!(in alloc; "{end}\n")
}

// Makes the line of an end. A command does this before it writes a file, so that no memory is missed after that.
pub fn say(alloc: Global, end: End) -> Result<Said, Fault>
    ensures end { IfOk result (λ s. s.end ≡ end) }
    ensures line { IfOk result IsSaid }
    ensures no_fault { result ≢ Err Fault.Files }
{
    let line = line(alloc, &end)?;
    Ok(Said { end, line })
}

// Prints the line, and gives the status, or 4 where that fails.
pub fn print_said<S: Sink>(said: Result<Said, Fault>, out: &mut S) -> u8
    ensures line { IfOk said (λ s. IsSaid s → Printed (line_of (text_of s.end) ∷ []) (status_of s.end) (S.faults out.old) (S.faults out.new) (S.written out.old) (S.written out.new) result) }
    ensures memory { IsErrOf said Fault.NoMemory → Printed (line_of (codes "no memory") ∷ []) 5 (S.faults out.old) (S.faults out.new) (S.written out.old) (S.written out.new) result }
    ensures files { IsErrOf said Fault.Files → Printed (line_of (codes "fault files") ∷ []) 4 (S.faults out.old) (S.faults out.new) (S.written out.old) (S.written out.new) result }
{
    match said {
        Ok(said) => print_last(out, said.line.as_bytes(), said.end.status()),
        Err(Fault::NoMemory) => print_last(out, b"no memory\n", 5),
        Err(Fault::Files) => print_last(out, b"fault files\n", 4),
    }
}
