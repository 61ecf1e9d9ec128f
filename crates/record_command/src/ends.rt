// How recording ends: its last line and its status.
ghost use Rattle.std.specs.Prelude.{◌≡◌};
ghost use Rattle.record_command.specs.Ends.{status_of};

use avm_model::Status;

/// The option whose file is refused.
#[derive(Clone, Copy, Debug, PartialEq, Eq)]
pub enum FileOption {
    Key,
    Script,
}

/// What a recording leaves.
#[derive(Clone, Copy, Debug, PartialEq, Eq)]
pub struct Summary {
    /// The number of the journal's last entry.
    pub entries: u64,
    /// How many events of the script were dropped.
    pub dropped: u64,
    /// How many leaves of the key the journal has used.
    pub leaves: u64,
    /// Whether the machine runs.
    pub state: Status,
}

/// An end without a fault of the outside and with enough memory.
#[derive(Clone, Copy, Debug, PartialEq, Eq)]
pub enum End {
    /// The script is recorded, and sealed.
    Recorded(Summary),
    /// An input file isn't there, or is outside its grammar or limit.
    RefusedFile(FileOption),
    /// The store holds no journal, or one whose header has no head.
    RefusedNoStore,
    /// No record stands behind the open gate at this place.
    RefusedDamaged(u64),
    /// The journal has the mark: its entries were moved to another store.
    RefusedRetired,
    /// The journal's key isn't that of the private key.
    RefusedKey,
    /// The first entry behind the journal's base that doesn't replay.
    RefusedJournal(u64),
    /// No leaf of the key is left to sign with.
    RefusedLeaves,
    /// The journal has no room for the next record.
    RefusedFull,
}

impl End {
    /// 0 recorded; 2 refused by content; 3 an input file refused.
    pub fn status(&self) -> u8
        ensures { result ≡ status_of self.now }
    {
        match self {
            End::Recorded(_) => 0,
            End::RefusedFile(_) => 3,
            _ => 2,
        }
    }
}
