ghost use Rattle.std.specs.Prelude.{◌≡◌, ◌≤◌, ◌+◌, ◌↔◌, IsTrue, length, take, drop, Some};
ghost use Rattle.std.specs.Option.{option_map};
ghost use Rattle.avm_num.specs.Room.{with_bytes, left};
ghost use Rattle.avm_model.specs.LmsValid.{number};
ghost use Rattle.avm_model.specs.Keys.{KeyData, key_bytes, key_file, fields_of, FitsKey, HasTypes, IsKeyOf};
ghost use Rattle.lms_signer.specs.Views.{key_data};

use avm_hash::Digest;
use avm_num::Room;

/// A private key as its file holds it: the LMS and LM-OTS types, I and SEED of RFC 8554.
#[derive(Clone, Copy)]
pub struct KeyFile {
    pub lms: u32,
    pub ots: u32,
    pub id: [u8; 16],
    pub seed: Digest,
}

/// Appends the private key file: docs/FORMATS.md, "Key files". It needs 61 bytes of room. A key that fits is read again as it was.
pub fn put_key(out: &mut Room, key: &KeyFile)
    requires { 61 ≤ left out.old }
    ensures value { out.new ≡ with_bytes out.old (key_bytes (key_data key.now)) }
    ensures left { left out.new + 61 ≡ left out.old }
    ensures again { (k : KeyData) → FitsKey k → key_file (key_bytes k) ≡ Some k }
{
    out.put(&[65, 86, 77, 75, 1]);
    out.put_u32(key.lms);
    out.put_u32(key.ots);
    out.put(&key.id);
    out.put(&key.seed.0);
}

/// The number in big-endian at a place.
fn number_at(bytes: &[u8], at: usize) -> u32
    requires { at + 4 ≤ length bytes.now }
    ensures { result ≡ number bytes.now at }
{
    u32::from_be_bytes([bytes[at], bytes[at + 1], bytes[at + 2], bytes[at + 3]])
}

/// 16 bytes at a place.
fn id_at(bytes: &[u8], at: usize) -> [u8; 16]
    requires { at + 16 ≤ length bytes.now }
    ensures { result ≡ take 16 (drop at bytes.now) }
{
    let mut id = [0u8; 16];
    id.copy_from_slice(&bytes[at..at + 16]);
    id
}

/// 32 bytes at a place.
fn seed_at(bytes: &[u8], at: usize) -> Digest
    requires { at + 32 ≤ length bytes.now }
    ensures { result.0 ≡ take 32 (drop at bytes.now) }
{
    let mut seed = [0u8; 32];
    seed.copy_from_slice(&bytes[at..at + 32]);
    Digest(seed)
}

/// The fields by their places.
fn fields(bytes: &[u8]) -> KeyFile
    requires { length bytes.now ≡ 61 }
    ensures { key_data result ≡ fields_of bytes.now }
{
    KeyFile {
        lms: number_at(bytes, 5),
        ots: number_at(bytes, 9),
        id: id_at(bytes, 13),
        seed: seed_at(bytes, 29),
    }
}

/// Whether the types are those of a private key.
fn has_types(key: &KeyFile) -> bool
    ensures { IsTrue result ↔ HasTypes (key_data key.now) }
{
    5 <= key.lms && key.lms <= 7 && 1 <= key.ots && key.ots <= 4
}

/// The key that the bytes spell.
#[tactic(auto, unfolding(avm_model::specs::Keys::key_bytes, avm_num::specs::Lists::be))]
fn spelled_key(bytes: &[u8]) -> Option<KeyFile>
    ensures { IsKeyOf (option_map key_data result) bytes.now }
{
    if bytes.len() != 61 {
        return None;
    }
    if bytes[..5] != [65, 86, 77, 75, 1] {
        return None;
    }
    let key = fields(bytes);
    if has_types(&key) { Some(key) } else { None }
}

/// The key of a private key file: docs/FORMATS.md, "Key files". None exactly where the bytes are no such file.
pub fn read_key(bytes: &[u8]) -> Option<KeyFile>
    ensures value { option_map key_data result ≡ key_file bytes.now }
    ensures spelled { IsKeyOf (option_map key_data result) bytes.now }
{
    spelled_key(bytes)
}
