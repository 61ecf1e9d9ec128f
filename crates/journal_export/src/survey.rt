//! What is known of a segment before it is written.

ghost use Rattle.std.specs.Prelude.{◌≤◌};
ghost use Rattle.journal_export.specs.Limits.{most_bytes, most_snaps};

use crate::cut::Cut;
use avm_hash::Digest;

/// What is known of a segment: which entries belong to it, the chain's hash before the first, whether that is a BOOT or a SNAP, how
/// many are SNAP, and how many bytes their frames have. A number past its limit stays there.
#[derive(Drop)]
pub struct Survey {
    pub cut: Cut,
    pub key: [u8; 56],
    pub hash: Digest,
    pub begins: bool,
    pub snaps: u64,
    pub size: u64,
    pub ghost few: { snaps ≤ most_snaps },
    pub ghost small: { size ≤ most_bytes },
}
