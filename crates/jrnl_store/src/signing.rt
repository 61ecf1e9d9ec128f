//! What a ticket shows.

ghost use Rattle.std.specs.Prelude.{◌≡◌, ◌<◌, ◌^◌};
ghost use Rattle.jrnl_store.specs.Kept.{ticket_view};

use crate::ticket::Ticket;
use avm_hash::Digest;

impl Ticket {
    /// The leaf that signs it.
    pub fn leaf(&self) -> u32
        ensures value { result ≡ (ticket_view self.now).leaf }
        ensures low { result < 2 ^ 15 }
    {
        self.item.leaf as u32
    }

    /// The number that is signed: of a seal that of the last entry.
    pub fn seq(&self) -> u64
        ensures { result ≡ (ticket_view self.now).seq }
    {
        self.item.seq
    }

    /// The hash that is signed: the chain's at that number.
    pub fn hash(&self) -> Digest
        ensures { result.0 ≡ (ticket_view self.now).hash }
    {
        self.item.hash
    }

    /// The chain's hash before that number.
    pub fn before(&self) -> Digest
        ensures { result.0 ≡ (ticket_view self.now).before }
    {
        self.item.before
    }
}
