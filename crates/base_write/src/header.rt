//! What stands in a base's header.

use avm_hash::Digest;

/// What stands in a base's header: the key, the number of its first entry, the chain's hash before that, the leaves used before it,
/// the head's bytes and the pages of the state there, and how many entries are carried, with their bytes.
#[derive(Clone, Copy)]
pub struct BaseHeader<'a> {
    pub key: &'a [u8],
    pub first: u64,
    pub before: Digest,
    pub leaves: u64,
    pub head: &'a [u8],
    pub pages: &'a [u8],
    pub count: u8,
    pub carried: &'a [u8],
}
