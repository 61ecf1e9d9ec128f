// The lines that have numbers.
ghost use Rattle.std.specs.Prelude.{◌≡◌, Err, IfOk, string_bytes};
ghost use Rattle.command_parts.specs.Printing.{line as line_of};
ghost use Rattle.retain_command.specs.Ends.{retained_text, text_of};
ghost use Rattle.store_move.specs.declared.fault.RetainFault.TheVariants as fault;

use std::alloc::{AllocError, Global};

/// The store goes on from the entry of this number on the other disk.
pub fn retained_line(alloc: Global, at: u64) -> Result<String, AllocError>
    ensures { IfOk result (λ t. string_bytes t ≡ line_of (retained_text at)) }
{
    format!(in alloc; "retained {at}\n")
}

/// No record stands behind the open gate at this place.
pub fn damaged_line(alloc: Global, place: u64) -> Result<String, AllocError>
    ensures { IfOk result (λ t. string_bytes t ≡ line_of (text_of 0 (Err (fault.Damaged place)))) }
{
    format!(in alloc; "refused damaged {place}\n")
}

/// The entry of this number doesn't replay.
pub fn journal_line(alloc: Global, number: u64) -> Result<String, AllocError>
    ensures { IfOk result (λ t. string_bytes t ≡ line_of (text_of 0 (Err (fault.Unreplayed number)))) }
{
    format!(in alloc; "refused journal {number}\n")
}
