ghost use Rattle.std.specs.Prelude.{◌≡◌, ◌≤◌, ◌+◌, ◌*◌, ◌^◌, ◌++◌, ◌∷◌, []};
ghost use Rattle.std.specs.Int.{w32, to_be_bytes};
ghost use Rattle.avm_hash.specs.Fed.{Fed};
ghost use Rattle.avm_model.specs.LmsTypes.{IsLms, IsOts, height_of, chains_of};
ghost use Rattle.avm_model.specs.LmsTree.{leaf, inner};

use avm_hash::{Digest, Hasher};
use lms_ots::chains;

/// The height of a tree (RFC 8554, section 5.1, table 2).
#[tactic(auto, unfolding(avm_model::specs::LmsTypes::height_of))]
pub fn height(lms: u32) -> usize
    requires { IsLms lms }
    ensures value { result ≡ height_of lms }
    ensures low { result ≤ 25 }
    ensures kept { lms ≤ 7 → result ≤ 15 }
{
    match lms {
        5 => 5,
        6 => 10,
        7 => 15,
        8 => 20,
        _ => 25,
    }
}

/// 2^h, the number of leaves of a tree of this type, from 5 to 9.
#[tactic(auto, unfolding(avm_model::specs::LmsTypes::height_of))]
pub fn leaf_count(lms: u32) -> usize
    requires { IsLms lms }
    ensures value { result ≡ 2 ^ height_of lms }
    ensures low { result ≤ 2 ^ 25 }
    ensures kept { lms ≤ 7 → result ≤ 2 ^ 15 }
{
    match lms {
        5 => 32,
        6 => 1024,
        7 => 32768,
        8 => 1048576,
        _ => 33554432,
    }
}

/// The length of a signature in bytes, by the types of its tree, from 5 to 9, and of its one-time signature, from 1 to 4 (RFC
/// 8554, section 5.4).
pub fn signature_len(lms: u32, ots: u32) -> usize
    requires lms_type { IsLms lms }
    requires ots_type { IsOts ots }
    ensures value { result ≡ 44 + 32 * chains_of ots + 32 * height_of lms }
    ensures small { result ≤ 9324 }
{
    44 + 32 * chains(ots) + 32 * height(lms)
}

/// A hasher that was fed I, u32 r and a tag.
fn begun(id: &[u8; 16], r: u32, tag: u8) -> Hasher
    ensures { Fed result (id.now ++ (to_be_bytes w32 r ++ (tag ∷ tag ∷ []))) }
{
    let mut hasher = Hasher::new();
    hasher.update(id);
    hasher.update(&r.to_be_bytes());
    hasher.update(&[tag, tag]);
    hasher
}

/// A leaf (RFC 8554, section 5.3).
pub fn leaf_node(id: &[u8; 16], r: u32, key: &Digest) -> Digest
    ensures { result.0 ≡ leaf id.now r key.now.0 }
{
    let mut hasher = begun(id, r, 130);
    hasher.update(&key.0);
    hasher.finish()
}

/// An inner node (RFC 8554, section 5.3).
pub fn inner_node(id: &[u8; 16], r: u32, left: &[u8], right: &[u8]) -> Digest
    ensures { result.0 ≡ inner id.now r left.now right.now }
{
    let mut hasher = begun(id, r, 131);
    hasher.update(left);
    hasher.update(right);
    hasher.finish()
}
