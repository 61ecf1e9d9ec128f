/// Why a recorder or a journal has stopped.
#[derive(Clone, Copy, Debug, PartialEq, Eq)]
pub enum Stop {
    /// A batch that signs was to be saved, and no leaf is left.
    LeavesSpent,
    /// The journal would pass its greatest length.
    Full,
    DiskFault,
    OutletFault,
    FeedFault,
}

/// Why a call on a journal was refused.
#[derive(Clone, Copy, Debug, PartialEq, Eq)]
pub enum StoreFault {
    NoMemory,
    DiskFault,
    NotEmpty,
    NoStore,
    Damaged(u64),
    LeavesSpent,
    Full,
    Ended(Stop),
}
