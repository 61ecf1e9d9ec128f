//! What is known of an entry's place behind some of a journal's items.

ghost use Rattle.std.specs.Prelude.{◌≤◌, ◌^◌};

use avm_hash::Digest;

/// What is known behind some of a journal's items: the chain's hash before the entry of this number, or before the next where that
/// hasn't come; whether it has come, and is a SNAP; and how many items sign from it on.
#[derive(Drop)]
pub struct Survey {
    pub number: u64,
    pub hash: Digest,
    pub reached: bool,
    pub snap: bool,
    pub late: u64,
    pub ghost few: { late ≤ 2 ^ 16 },
}

/// Where an entry stands in a journal: whether it is a SNAP, the chain's hash before it, and how many leaves are used before it.
#[derive(Clone, Copy)]
pub struct Place {
    pub snap: bool,
    pub before: Digest,
    pub leaves: u64,
}
