//! What is printed, and the status.

ghost use Rattle.std.specs.Prelude.{map, OnOk, string_bytes};
ghost use Rattle.sample_judge.specs.Ends.{Adds};

use avm_num::NoMemory;
use std::alloc::AllocError;

/// The lines, each with its byte 10, and the status.
#[derive(Drop)]
pub struct Ending {
    pub lines: Vec<String>,
    pub status: u8,
}

/// Adds a line.
pub fn add(lines: &mut Vec<String>, text: Result<String, AllocError>) -> Result<(), NoMemory>
    ensures { OnOk result (Adds text (map string_bytes lines.old.items) (map string_bytes lines.new.items)) }
{
    match text {
        Ok(text) => match lines.push(text) {
            Ok(()) => Ok(()),
            Err(_) => Err(NoMemory),
        },
        Err(_) => Err(NoMemory),
    }
}
