// The lines that have numbers.
ghost use Rattle.std.specs.Prelude.{◌≡◌, Err, IfOk, string_bytes};
ghost use Rattle.command_parts.specs.Printing.{line as line_of};
ghost use Rattle.export_command.specs.Ends.{exported_text, text_of};
ghost use Rattle.journal_export.specs.declared.fault.ExportFault.TheVariants as fault;

use std::alloc::{AllocError, Global};

/// The entries of these numbers are written.
pub fn exported_line(alloc: Global, from: u64, to: u64) -> Result<String, AllocError>
    ensures { IfOk result (λ t. string_bytes t ≡ line_of (exported_text from to)) }
{
    format!(in alloc; "exported {from} to {to}\n")
}

/// No record stands behind the open gate at this place.
pub fn damaged_line(alloc: Global, place: u64) -> Result<String, AllocError>
    ensures { IfOk result (λ t. string_bytes t ≡ line_of (text_of 0 0 (Err (fault.Damaged place)))) }
{
    format!(in alloc; "refused damaged {place}\n")
}

/// The entry of this number doesn't replay.
pub fn journal_line(alloc: Global, number: u64) -> Result<String, AllocError>
    ensures { IfOk result (λ t. string_bytes t ≡ line_of (text_of 0 0 (Err (fault.Unreplayed number)))) }
{
    format!(in alloc; "refused journal {number}\n")
}
