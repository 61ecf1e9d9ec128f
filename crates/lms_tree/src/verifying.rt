ghost use Rattle.std.specs.Prelude.{◌≡◌, ◌≤◌, ◌<◌, ◌+◌, ◌*◌, ◌^◌, ◌↔◌, IsTrue, length, take, drop};
ghost use Rattle.avm_model.specs.LmsTypes.{IsLms, IsOts, height_of, chains_of};
ghost use Rattle.avm_model.specs.LmsTree.{climb, above};
ghost use Rattle.avm_model.specs.LmsValid.{number, root_by, IsValid, Valid, valid};
ghost use Rattle.avm_model.specs.Keys.{public_file};

use crate::nodes::{height, inner_node, leaf_count, leaf_node};
use avm_hash::Digest;
use lms_ots::{candidate, chains};

/// The number in big-endian at a place.
fn number_at(bytes: &[u8], at: usize) -> u32
    requires { at + 4 ≤ length bytes.now }
    ensures { result ≡ number bytes.now at }
{
    u32::from_be_bytes([bytes[at], bytes[at + 1], bytes[at + 2], bytes[at + 3]])
}

/// 32 bytes at a place.
fn piece(bytes: &[u8], at: usize) -> &[u8]
    requires { at + 32 ≤ length bytes.now }
    ensures value { result.now ≡ take 32 (drop at bytes.now) }
{
    &bytes[at..at + 32]
}

/// The node above r, by r and the node beside it.
fn node_above(id: &[u8; 16], r: u32, node: &Digest, beside: &[u8]) -> Digest
    ensures { result.0 ≡ above id.now r node.now.0 beside.now }
{
    if r % 2 == 1 {
        inner_node(id, r / 2, beside, &node.0)
    } else {
        inner_node(id, r / 2, &node.0, beside)
    }
}

/// The root above r.
fn root_above(id: &[u8; 16], h: usize, r: u32, node: Digest, beyond: &[u8]) -> Digest
    requires length { length beyond.now ≡ 32 * h }
    requires few { h ≤ 25 }
    ensures { result.0 ≡ climb id.now h r node.0 beyond.now }
{
    let mut node = node;
    let mut r = r;
    for i in 0..h {
        node = node_above(id, r, &node, piece(beyond, 32 * i));
        r /= 2;
    }
    node
}

/// The root that a signature of this form gives.
fn root_of(lms: u32, ots: u32, id: &[u8; 16], text: &[u8], sig: &[u8]) -> Digest
    requires lms_type { IsLms lms }
    requires ots_type { IsOts ots }
    requires exact { length sig.now ≡ 44 + 32 * chains_of ots + 32 * height_of lms }
    requires same_ots { number sig.now 4 ≡ ots }
    requires within { number sig.now 0 < 2 ^ height_of lms }
    ensures { result.0 ≡ root_by lms ots id.now text.now sig.now }
{
    let q = number_at(sig, 0);
    let h = height(lms);
    let end = 40 + 32 * chains(ots);
    let r = leaf_count(lms) as u32 + q;
    match candidate(ots, id, q, text, &sig[4..end]) {
        Some(key) => root_above(id, h, r, leaf_node(id, r, &key), &sig[end + 4..]),
        None => unreachable!(),
    }
}

/// Whether a signature is valid at types of the tables.
fn is_valid(lms: u32, ots: u32, id: &[u8; 16], root: &[u8], text: &[u8], sig: &[u8]) -> bool
    requires lms_type { IsLms lms }
    requires ots_type { IsOts ots }
    ensures { IsTrue result ↔ IsValid lms ots id.now root.now text.now sig.now }
{
    let h = height(lms);
    let end = 40 + 32 * chains(ots);
    if sig.len() != end + 4 + 32 * h {
        return false;
    }
    if number_at(sig, 4) != ots || number_at(sig, end) != lms {
        return false;
    }
    if number_at(sig, 0) >= leaf_count(lms) as u32 {
        return false;
    }
    root_of(lms, ots, id, text, sig).0.as_slice() == root
}

/// 16 bytes at a place.
fn id_at(bytes: &[u8], at: usize) -> [u8; 16]
    requires { at + 16 ≤ length bytes.now }
    ensures { result ≡ take 16 (drop at bytes.now) }
{
    let mut id = [0u8; 16];
    id.copy_from_slice(&bytes[at..at + 16]);
    id
}

/// Whether bytes are a public key: 56 bytes with types of the standard's tables (RFC 8554, section 5.3).
#[tactic(auto, unfolding(avm_model::specs::Keys::public_file, avm_model::specs::LmsValid::has_types))]
pub fn is_public_key(bytes: &[u8]) -> bool
    ensures { result ≡ public_file bytes.now }
{
    if bytes.len() != 56 {
        return false;
    }
    let lms = number_at(bytes, 0);
    let ots = number_at(bytes, 4);
    5 <= lms && lms <= 9 && 1 <= ots && ots <= 4
}

/// Whether the equations hold of three byte strings.
fn has_equations(key: &[u8], text: &[u8], sig: &[u8]) -> bool
    ensures { IsTrue result ↔ Valid key.now text.now sig.now }
{
    if key.len() != 56 {
        return false;
    }
    let lms = number_at(key, 0);
    let ots = number_at(key, 4);
    if lms < 5 || lms > 9 || ots < 1 || ots > 4 {
        return false;
    }
    is_valid(lms, ots, &id_at(key, 8), &key[24..], text, sig)
}

/// Whether a signature of a text is valid under a public key (RFC 8554, section 5.4.2, algorithms 6 and 6a), for every three
/// byte strings.
pub fn verify(key: &[u8], text: &[u8], sig: &[u8]) -> bool
    ensures value { result ≡ valid key.now text.now sig.now }
    ensures equations { IsTrue result ↔ Valid key.now text.now sig.now }
{
    has_equations(key, text, sig)
}
