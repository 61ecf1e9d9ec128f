// Why evidence isn't answered: its line and its status.
ghost use Rattle.std.specs.Prelude.{◌≡◌, Some, IfOk, string_bytes};
ghost use Rattle.command_parts.specs.Printing.{line as line_of};
ghost use Rattle.rebut_command.specs.Lines.{status_of, text_of};

use std::alloc::{AllocError, Global};
use std::fmt;

/// Why evidence isn't answered.
#[derive(Clone, Copy, Debug, PartialEq, Eq)]
pub enum Refusal {
    /// The evidence's file isn't there.
    File,
    /// The bytes are no evidence, or it doesn't hold.
    Evidence,
    /// The store is none, or its head is none.
    NoStore,
    /// The place of the gate at which the store's bytes are no journal.
    Damaged(u64),
    /// The evidence is of another key than the store.
    Key,
    /// The number of the first entry of the journal that doesn't replay.
    Journal(u64),
    /// The journal doesn't cover the evidence.
    Uncovered,
}

impl fmt::Display for Refusal {
    ghost output = { λ r. Some (text_of r) };

    fn fmt<W: fmt::Write>(&self, f: &mut fmt::Formatter<W>) -> fmt::Result {
        match self {
            Refusal::File => write!(f, "refused file --evidence"),
            Refusal::Evidence => write!(f, "refused evidence"),
            Refusal::NoStore => write!(f, "refused nostore"),
            Refusal::Damaged(place) => write!(f, "refused damaged {place}"),
            Refusal::Key => write!(f, "refused key"),
            Refusal::Journal(number) => write!(f, "refused journal {number}"),
            Refusal::Uncovered => write!(f, "refused uncovered"),
        }
    }
}

impl Refusal {
    /// 2 refused by content; 3 the evidence's file refused.
    pub fn status(&self) -> u8
        ensures { result ≡ status_of self.now }
    {
        match self {
            Refusal::File => 3,
            _ => 2,
        }
    }

    /// The line.
    pub fn line(&self, alloc: Global) -> Result<String, AllocError>
        ensures { IfOk result (λ t. string_bytes t ≡ line_of (text_of self.now)) }
    {
        format!(in alloc; "{self}\n")
    }
}
