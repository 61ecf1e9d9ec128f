//! Why a run ends before its script is over.

/// A batch can't be saved, or a call of the outside failed.
#[derive(Clone, Copy, Debug, PartialEq, Eq)]
pub enum RunStop {
    /// A batch that signs was to be saved, and no leaf is left.
    LeavesSpent,
    /// The journal would pass its greatest length.
    Full,
    DiskFault,
    OutletFault,
    /// The line of a dropped event couldn't be printed. The recorder isn't stopped, and nothing is sealed.
    SinkFault,
}
