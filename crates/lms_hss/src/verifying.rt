// Signatures of two levels are verified.
ghost use Rattle.std.specs.Prelude.{◌≡◌, ◌+◌, ◌*◌, ◌^◌, ◌≤◌, ◌↔◌, IsTrue, true, length, take, drop};
ghost use Rattle.avm_model.specs.LmsTypes.{IsLms, IsOts, height_of, chains_of};
ghost use Rattle.avm_model.specs.LmsValid.{number, Valid};
ghost use Rattle.avm_model.specs.Keys.{public_file};
ghost use Rattle.hss_model.specs.Hss.{is_hss_key, HssValid, signature_length, upper_of, bottom_of, lower_of};
ghost use Rattle.hss_model.specs.Roll.{most_of};

use lms_ots::chains;
use lms_tree::{is_public_key, verify};

/// The number in big-endian at a place.
fn number_at(bytes: &[u8], at: usize) -> u32
    requires { at + 4 ≤ length bytes.now }
    ensures { result ≡ number bytes.now at }
{
    u32::from_be_bytes([bytes[at], bytes[at + 1], bytes[at + 2], bytes[at + 3]])
}

/// How many leaves the top key of an HSS key has.
#[tactic(auto, unfolding(hss_model::specs::Roll::most_of, avm_model::specs::LmsTypes::height_of))]
pub fn leaves(key: &[u8; 60]) -> u32
    requires { is_hss_key key.now ≡ true }
    ensures value { result ≡ most_of key.now }
    ensures low { result ≤ 2 ^ 25 }
{
    match number_at(key, 4) {
        5 => 32,
        6 => 1024,
        7 => 32768,
        8 => 1048576,
        _ => 33554432,
    }
}

/// Whether 60 bytes are an HSS key with types of the tables.
pub fn is_key(key: &[u8]) -> bool
    requires { length key.now ≡ 60 }
    ensures { result ≡ is_hss_key key.now }
{
    key[..4] == [0, 0, 0, 2] && is_public_key(&key[4..])
}

/// The height of a tree (RFC 8554, section 5.1, table 2).
#[tactic(auto, unfolding(avm_model::specs::LmsTypes::height_of))]
fn height(lms: u32) -> usize
    requires { IsLms lms }
    ensures value { result ≡ height_of lms }
    ensures low { result ≤ 25 }
{
    match lms {
        5 => 5,
        6 => 10,
        7 => 15,
        8 => 20,
        _ => 25,
    }
}

/// The length of a signature under a public key.
#[tactic(auto, unfolding(avm_model::specs::Keys::public_file, avm_model::specs::LmsValid::has_types))]
fn signature_len(key: &[u8]) -> usize
    requires { public_file key.now ≡ true }
    ensures value { result ≡ signature_length key.now }
    ensures small { result ≤ 10000 }
{
    44 + 32 * chains(number_at(key, 4)) + 32 * height(number_at(key, 0))
}

/// Whether the parts of a signature are valid, of which the first has so many bytes.
fn has_valid_parts(n: usize, top: &[u8], text: &[u8], sig: &[u8]) -> bool
    requires small { n ≤ 10000 }
    requires long { n + 60 ≤ length sig.now }
    ensures { IsTrue result ↔ (Valid top.now (bottom_of n sig.now) (upper_of n sig.now) × Valid (bottom_of n sig.now) text.now (lower_of n sig.now)) }
{
    let bottom = &sig[4 + n..60 + n];
    if !verify(top, bottom, &sig[4..4 + n]) {
        return false;
    }
    verify(bottom, text, &sig[60 + n..])
}

/// Whether a signature of a text is valid under an HSS key of two levels (RFC 8554, section 6.3, algorithm 9), for every three byte
/// strings.
pub fn hss_verify(key: &[u8], text: &[u8], sig: &[u8]) -> bool
    ensures { IsTrue result ↔ HssValid key.now text.now sig.now }
{
    if key.len() != 60 {
        return false;
    }
    if !is_key(key) {
        return false;
    }
    let top = &key[4..];
    let n = signature_len(top);
    if sig.len() < n + 60 {
        return false;
    }
    if sig[..4] != [0, 0, 0, 1] {
        return false;
    }
    has_valid_parts(n, top, text, sig)
}
