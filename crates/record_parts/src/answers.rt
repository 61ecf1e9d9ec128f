//! What a recorder answers.

use avm_model::NotTaken;
use jrnl_store::Stop;

/// What a turn did.
#[derive(Clone, Copy, Debug, PartialEq, Eq)]
pub enum Turn {
    /// So many steps were made.
    Ran(u64),
    /// What came in was taken.
    Took,
    /// A packet was released again.
    Resent,
    /// What came in was dropped.
    Dropped(NotTaken),
    /// Nothing is due, and the machine waits.
    Waiting,
    /// Nothing is due, and the machine has halted.
    Halted,
    /// No event remains, and the run is over.
    End,
    /// This call stopped the recorder.
    Stopped(Stop),
    /// An earlier call stopped it.
    Ended(Stop),
}

/// What sealing did.
#[derive(Clone, Copy, Debug, PartialEq, Eq)]
pub enum Sealed {
    /// A seal was saved, and its authenticator released.
    Done,
    /// The last item is a seal already: its authenticator was released again.
    Again,
    Stopped(Stop),
    Ended(Stop),
}
