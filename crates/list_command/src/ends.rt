// How a listing ends: its last line and its status.
ghost use Rattle.std.specs.Prelude.{◌≡◌, Some, IfOk, string_bytes};
ghost use Rattle.command_parts.specs.Printing.{line as line_of};
ghost use Rattle.list_command.specs.Ends.{status_of, text_of};

use std::alloc::{AllocError, Global};
use std::fmt;

/// An end without a fault of the outside and with enough memory.
#[derive(Clone, Copy, Debug, PartialEq, Eq)]
pub enum End {
    /// All lines are printed.
    Listed,
    /// The store holds no journal, or one whose header has no head.
    RefusedNoStore,
    /// No record stands behind the open gate at this place.
    RefusedDamaged(u64),
}

impl fmt::Display for End {
    ghost output = { λ e. Some (text_of e) };

    fn fmt<W: fmt::Write>(&self, f: &mut fmt::Formatter<W>) -> fmt::Result {
        match self {
            End::Listed => Ok(()),
            End::RefusedNoStore => write!(f, "refused nostore"),
            End::RefusedDamaged(place) => write!(f, "refused damaged {place}"),
        }
    }
}

impl End {
    /// 0 listed; 2 refused by content.
    pub fn status(&self) -> u8
        ensures { result ≡ status_of self.now }
    {
        match self {
            End::Listed => 0,
            _ => 2,
        }
    }

    /// The last line.
    pub fn line(&self, alloc: Global) -> Result<String, AllocError>
        ensures { IfOk result (λ t. string_bytes t ≡ line_of (text_of self.now)) }
    {
        format!(in alloc; "{self}\n")
    }
}
