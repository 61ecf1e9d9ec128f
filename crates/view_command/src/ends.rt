// How a view ends: its last line and its status.
ghost use Rattle.std.specs.Prelude.{◌≡◌, Some, IfOk, string_bytes};
ghost use Rattle.command_parts.specs.Printing.{line as line_of};
ghost use Rattle.view_command.specs.Ends.{status_of, text_of};

use std::alloc::{AllocError, Global};
use std::fmt;

/// An end without a fault of the outside and with enough memory.
#[derive(Clone, Copy, Debug, PartialEq, Eq)]
pub enum End {
    /// All lines are printed.
    Shown,
    /// The segment's file isn't there.
    RefusedFile,
    /// The bytes are no segment.
    RefusedMalformed,
    /// The first entry hasn't the snapshot's root and count.
    RefusedUncommitted,
    /// The number of the first entry that doesn't replay.
    RefusedUncovered(u64),
    /// The count is none of the run, or a word isn't in RAM.
    RefusedRange,
}

impl fmt::Display for End {
    ghost output = { λ e. Some (text_of e) };

    fn fmt<W: fmt::Write>(&self, f: &mut fmt::Formatter<W>) -> fmt::Result {
        match self {
            End::Shown => Ok(()),
            End::RefusedFile => write!(f, "refused file --segment"),
            End::RefusedMalformed => write!(f, "refused malformed"),
            End::RefusedUncommitted => write!(f, "refused uncommitted"),
            End::RefusedUncovered(number) => write!(f, "refused uncovered {number}"),
            End::RefusedRange => write!(f, "refused range"),
        }
    }
}

impl End {
    /// 0 shown; 2 refused by content; 3 the segment's file refused.
    pub fn status(&self) -> u8
        ensures { result ≡ status_of self.now }
    {
        match self {
            End::Shown => 0,
            End::RefusedFile => 3,
            _ => 2,
        }
    }

    /// The last line.
    pub fn line(&self, alloc: Global) -> Result<String, AllocError>
        ensures { IfOk result (λ t. string_bytes t ≡ line_of (text_of self.now)) }
    {
        format!(in alloc; "{self}\n")
    }
}
