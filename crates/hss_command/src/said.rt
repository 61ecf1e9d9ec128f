// An end with its line.
ghost use Rattle.std.specs.Prelude.{◌≡◌, ◌≢◌, IfOk, IfErr, IsErrOf};
ghost use Rattle.hss_command.specs.Said.{IsSaid};

use crate::End;
use command_parts::Fault;
use std::alloc::Global;

/// An end, and the line that is printed for it.
#[derive(Drop)]
pub struct Said {
    pub end: End,
    pub line: String,
}

// Makes the line of an end. A command does this before it writes a file, so that no memory is missed after that.
pub fn say(alloc: Global, end: End) -> Result<Said, Fault>
    ensures end { IfOk result (λ s. s.end ≡ end) }
    ensures line { IfOk result IsSaid }
    ensures cause { IfErr result (λ e. e ≡ Fault.NoMemory) }
{
    let line = end.line(alloc)?;
    Ok(Said { end, line })
}
