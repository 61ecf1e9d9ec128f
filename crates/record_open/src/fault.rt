//! Why a store isn't opened.

/// Why a store isn't opened for recording.
#[derive(Clone, Copy, Debug, PartialEq, Eq)]
pub enum RecordFault {
    NoMemory,
    DiskFault,
    /// The disk holds no journal, or one whose header has no head.
    NoStore,
    /// No record stands behind the open gate at this place.
    Damaged(u64),
    /// The journal has the mark, which names this entry.
    Retired(u64),
    /// The journal's key isn't the signer's.
    KeyMismatch,
    /// The first entry behind the base that doesn't replay.
    Unreplayed(u64),
}
