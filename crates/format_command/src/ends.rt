// How formatting ends: its line and its status.
ghost use Rattle.std.specs.Prelude.{◌≡◌};
ghost use Rattle.format_command.specs.Ends.{status_of};

/// The option whose file is refused.
#[derive(Clone, Copy, Debug, PartialEq, Eq)]
pub enum FileOption {
    Key,
    Config,
    Image,
}

/// An end without a fault of the outside and with enough memory.
#[derive(Clone, Copy, Debug, PartialEq, Eq)]
pub enum End {
    /// The disk is a store.
    StoreMade,
    /// An input file isn't there, or is outside its grammar or limit.
    RefusedFile(FileOption),
    /// The disk has bytes already.
    RefusedNotEmpty,
}

impl End {
    /// 0 made; 2 refused by content; 3 an input file refused.
    pub fn status(&self) -> u8
        ensures { result ≡ status_of self.now }
    {
        match self {
            End::StoreMade => 0,
            End::RefusedFile(_) => 3,
            End::RefusedNotEmpty => 2,
        }
    }
}
