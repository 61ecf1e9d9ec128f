// How a command ends: its line and its status.
ghost use Rattle.std.specs.Prelude.{◌≡◌, Some, IfOk, string_bytes};
ghost use Rattle.command_parts.specs.Printing.{line as line_of};
ghost use Rattle.hss_command.specs.Ends.{status_of, text_of, option_text};

use std::alloc::{AllocError, Global};
use std::fmt;

/// The option whose file is refused.
#[derive(Clone, Copy, Debug, PartialEq, Eq)]
pub enum FileOption {
    Key,
    Public,
    Endorse,
    Auths,
}

impl fmt::Display for FileOption {
    ghost output = { λ o. Some (option_text o) };

    fn fmt<W: fmt::Write>(&self, f: &mut fmt::Formatter<W>) -> fmt::Result {
        match self {
            FileOption::Key => write!(f, "--key"),
            FileOption::Public => write!(f, "--public"),
            FileOption::Endorse => write!(f, "--endorse"),
            FileOption::Auths => write!(f, "--auths"),
        }
    }
}

/// An end without a fault of the outside and with enough memory.
#[derive(Clone, Copy, Debug, PartialEq, Eq)]
pub enum End {
    /// The roll has no bottom keys yet.
    RollMade,
    /// The leaf of the bottom key.
    Enrolled(u32),
    /// How many authenticators were written.
    Widened(u32),
    /// How many authenticators were written.
    Narrowed(u32),
    /// An input file isn't there, or is outside its grammar or limit.
    RefusedFile(FileOption),
    /// There is something on the disk.
    RefusedNotEmpty,
    /// The disk has no roll.
    RefusedNoStore,
    /// The roll is another key's.
    RefusedKey,
    /// All leaves of the top key are bound.
    RefusedLeaves,
    /// The file isn't one or more authenticators.
    RefusedMalformed,
    /// The first authenticator that isn't valid.
    RefusedBadAuth(u32),
    /// The first authenticator with another bottom key.
    RefusedMixed(u32),
}

impl fmt::Display for End {
    ghost output = { λ e. Some (text_of e) };

    fn fmt<W: fmt::Write>(&self, f: &mut fmt::Formatter<W>) -> fmt::Result {
        match self {
            End::RollMade => write!(f, "roll made"),
            End::Enrolled(leaf) => write!(f, "enrolled {leaf}"),
            End::Widened(count) => write!(f, "widened {count}"),
            End::Narrowed(count) => write!(f, "narrowed {count}"),
            End::RefusedFile(option) => write!(f, "refused file {option}"),
            End::RefusedNotEmpty => write!(f, "refused notempty"),
            End::RefusedNoStore => write!(f, "refused nostore"),
            End::RefusedKey => write!(f, "refused key"),
            End::RefusedLeaves => write!(f, "refused leaves"),
            End::RefusedMalformed => write!(f, "refused malformed"),
            End::RefusedBadAuth(k) => write!(f, "refused badauth {k}"),
            End::RefusedMixed(k) => write!(f, "refused mixed {k}"),
        }
    }
}

impl End {
    /// 0 done; 2 refused by content; 3 an input file refused.
    pub fn status(&self) -> u8
        ensures { result ≡ status_of self.now }
    {
        match self {
            End::RollMade | End::Enrolled(_) | End::Widened(_) | End::Narrowed(_) => 0,
            End::RefusedFile(_) => 3,
            _ => 2,
        }
    }

    /// The line.
    pub fn line(&self, alloc: Global) -> Result<String, AllocError>
        ensures { IfOk result (λ t. string_bytes t ≡ line_of (text_of self.now)) }
    {
        format!(in alloc; "{self}\n")
    }
}
