//! Why a store isn't moved.

/// Why a store isn't moved to a base on another disk.
#[derive(Clone, Copy, Debug, PartialEq, Eq)]
pub enum RetainFault {
    NoMemory,
    /// A call on the store's disk failed.
    DiskFault,
    /// A call on the spare failed.
    SpareFault,
    /// The disk holds no journal, or one whose header has no head.
    NoStore,
    /// No record stands behind the open gate at this place.
    Damaged(u64),
    /// The first entry up to the asked one that doesn't replay.
    Unreplayed(u64),
    /// The asked number is no SNAP entry's, or has 2^61 or more before it; or the mark names another one.
    Range,
    /// The store has no mark, and a journal stands on the spare, or may stand there.
    NotEmpty,
    /// The base or the mark would pass a journal's greatest length.
    Full,
    /// The store has the mark, and the spare doesn't hold its base.
    OtherSpare,
}
