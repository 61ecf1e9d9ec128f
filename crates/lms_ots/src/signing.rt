ghost use Rattle.std.specs.Prelude.{◌≡◌, ◌≤◌, ◌+◌, ◌*◌, take, length};
ghost use Rattle.std.specs.Option.{option_map};
ghost use Rattle.std.specs.Int.{w32, from_be_bytes};
ghost use Rattle.avm_model.specs.LmsTypes.{IsOts, chains_of};
ghost use Rattle.avm_model.specs.LmsDigits.{marked};
ghost use Rattle.avm_model.specs.LmsOts.{base_of, ots_public, ots_signature, candidate_of, candidate_key, digest_of, secret, shown_of, compressed, joined};
ghost use Rattle.avm_num.specs.Room.{with_bytes, left};

use crate::digits::marked_of;
use crate::types::chains;
use crate::values::{compressed, ends, piece, put_values, reached, shown};
use avm_hash::{Digest, Hasher};
use avm_num::Room;

/// I and u32 q, which stand at the front of each text that is hashed.
fn base_bytes(id: &[u8; 16], q: u32) -> [u8; 20]
    ensures { result ≡ base_of id.now q }
{
    let mut base = [0u8; 20];
    base[..16].copy_from_slice(id);
    base[16..].copy_from_slice(&q.to_be_bytes());
    base
}

/// K, the one-time public key of leaf `q` of the private key with this id and seed (RFC 8554, section 4.3, algorithm 1, with
/// the private values of appendix A). `ots` is a type of the standard's table, from 1 to 4.
pub fn public(ots: u32, id: &[u8; 16], q: u32, seed: &Digest) -> Digest
    requires { IsOts ots }
    ensures { result.0 ≡ ots_public ots id.now q seed.now.0 }
{
    let base = base_bytes(id, q);
    compressed(ots, &base, &ends(ots, &base, &seed.0))
}

/// C, the randomizer, made from the seed as a private value is.
fn randomizer_of(base: &[u8; 20], seed: &[u8; 32]) -> Digest
    ensures { result.0 ≡ secret base.now 65533 seed.now }
{
    let mut hasher = Hasher::new();
    hasher.update(base);
    hasher.update(&65533u16.to_be_bytes());
    hasher.update(&[255]);
    hasher.update(seed);
    hasher.finish()
}

/// Q, the digest of a text (RFC 8554, section 4.5).
fn message_digest(base: &[u8; 20], c: &[u8], text: &[u8]) -> Digest
    ensures { result.0 ≡ digest_of base.now c.now text.now }
{
    let mut hasher = Hasher::new();
    hasher.update(base);
    hasher.update(&[129, 129]);
    hasher.update(c);
    hasher.update(text);
    hasher.finish()
}

/// Writes what a signature shows of the chains.
fn put_chains(ots: u32, base: &[u8; 20], seed: &[u8; 32], signed: &[u8; 34], out: &mut Room)
    requires ots_type { IsOts ots }
    requires room { 32 * chains_of ots ≤ left out.old }
    ensures left { left out.new + 32 * chains_of ots ≡ left out.old }
    ensures value { out.new ≡ with_bytes out.old (joined (shown_of ots base.now seed.now signed.now) (chains_of ots)) }
{
    put_values(out, &shown(ots, base, seed, signed), chains(ots));
}

/// Appends the one-time signature of a text at leaf `q` (RFC 8554, section 4.5, algorithm 3). Its C is made from the seed, so a
/// text has one signature at a leaf. `ots` is from 1 to 4, and the room has the 36 + 32 p bytes of the signature left.
#[tactic(auto, unfolding(avm_num::specs::Lists::be))]
pub fn sign(ots: u32, id: &[u8; 16], q: u32, seed: &Digest, text: &[u8], out: &mut Room)
    requires ots_type { IsOts ots }
    requires room { 36 + 32 * chains_of ots ≤ left out.old }
    ensures left { left out.new + (36 + 32 * chains_of ots) ≡ left out.old }
    ensures value { out.new ≡ with_bytes out.old (ots_signature ots id.now q seed.now.0 text.now) }
{
    let base = base_bytes(id, q);
    let c = randomizer_of(&base, &seed.0);
    let digest = message_digest(&base, &c.0, text);
    out.put_u32(ots);
    out.put(&c.0);
    put_chains(ots, &base, &seed.0, &marked_of(ots, &digest.0), out);
}

/// K by a signature of this length.
fn key_by(ots: u32, id: &[u8; 16], q: u32, text: &[u8], sig: &[u8]) -> Digest
    requires ots_type { IsOts ots }
    requires exact { length sig.now ≡ 36 + 32 * chains_of ots }
    ensures { result.0 ≡ candidate_key ots id.now q text.now sig.now }
{
    let base = base_bytes(id, q);
    let digest = message_digest(&base, piece(sig, 4), text);
    let signed = marked_of(ots, &digest.0);
    compressed(ots, &base, &reached(ots, &base, &signed, sig))
}

/// The number in big-endian at the front.
fn number(bytes: &[u8]) -> u32
    requires { 4 ≤ length bytes.now }
    ensures { result ≡ from_be_bytes w32 (take 4 bytes.now) }
{
    u32::from_be_bytes([bytes[0], bytes[1], bytes[2], bytes[3]])
}

/// Kc, the one-time public key that a signature gives (RFC 8554, section 4.6, algorithm 4b): none exactly where the signature's
/// type isn't `ots`, or its length isn't 36 + 32 p. `ots` is from 1 to 4.
pub fn candidate(ots: u32, id: &[u8; 16], q: u32, text: &[u8], sig: &[u8]) -> Option<Digest>
    requires { IsOts ots }
    ensures { option_map (λ d. d.0) result ≡ candidate_of ots id.now q text.now sig.now }
{
    if sig.len() == 36 + 32 * chains(ots) && number(sig) == ots {
        Some(key_by(ots, id, q, text, sig))
    } else {
        None
    }
}
