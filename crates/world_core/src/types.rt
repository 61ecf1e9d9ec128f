//! What a world shows and answers.

use recorder::{RecordFault, Sealed, Turn};

/// A packet of the pool.
pub struct Parcel<'a> {
    /// The own id of the node that released it.
    pub from: u32,
    /// The peer that it was released to.
    pub to: u32,
    pub bytes: &'a [u8],
}

/// What a step did.
#[derive(Clone, Copy, Debug, PartialEq, Eq)]
pub enum Stepped {
    /// The node made a turn.
    Turned(Turn),
    /// The node sealed its journal, or tried to.
    Sealed(Sealed),
    /// The node crashed, and was opened again on what the crash left.
    Reopened,
    /// There is no node of this number.
    NoNode,
    /// There is no packet of this number.
    NoPacket,
    /// The node couldn't be opened again behind a crash.
    Down,
}

/// Why a store doesn't join.
#[derive(Clone, Copy, Debug, PartialEq, Eq)]
pub enum WorldFault {
    NoMemory,
    /// The store can't be opened.
    Node(RecordFault),
    /// The node of this number has the same own id.
    Ids(u32),
    /// Of this node and the new one, one has a row for the other with another key than the other's.
    Keys(u32),
}
