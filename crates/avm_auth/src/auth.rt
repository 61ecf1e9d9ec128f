ghost use Rattle.std.specs.Prelude.{◌≡◌, ◌≤◌, ◌<◌, ◌^◌, ◌+◌, ◌++◌, List, ℕ, Some, length};
ghost use Rattle.avm_num.specs.Bytes.{Takes};
ghost use Rattle.avm_num.specs.Room.{with_bytes, left};
ghost use Rattle.avm_model.specs.Auth.{AuthData, FitsAuth, auth_at, auth_bytes, signed_text_of};
ghost use Rattle.avm_auth.specs.Views.{auth_view};

use avm_hash::Digest;
use avm_num::{Room, View};

/// A signed position of a log: the number of an entry, the chain's hash there, and the signature.
#[derive(Clone, Copy)]
pub struct Auth<'a> {
    pub seq: u64,
    pub hash: Digest,
    pub sig: &'a [u8],
}

fn digest_of(bytes: &[u8]) -> Digest
    requires { length bytes.now ≡ 32 }
    ensures { result.0 ≡ bytes.now }
{
    let mut digest = [0; 32];
    digest.copy_from_slice(bytes);
    Digest(digest)
}

/// The authenticator at the front, or none where no authenticator stands there; then the view is left as it was.
#[tactic(auto, unfolding(avm_model::specs::Auth::auth_at, avm_model::specs::Parts::ordinal_at, avm_model::specs::Parts::signature_at))]
pub fn read_auth<'a>(view: &mut View<'a>) -> Option<Auth<'a>>
    ensures { Takes auth_view result view.old view.new (auth_at view.old) }
{
    let mut rest = View::new(view.rest());
    let seq = rest.take_u64()?;
    if seq < 1 || seq >= 1 << 62 {
        return None;
    }
    let hash = rest.take(32)?;
    let len = rest.take_u32()?;
    let sig = rest.take(len as usize)?;
    if sig.len() > 9324 {
        return None;
    }
    *view = rest;
    Some(Auth {
        seq,
        hash: digest_of(hash),
        sig,
    })
}

/// The text that is signed for the number of an entry and the chain's hash there.
#[tactic(auto, unfolding(avm_model::specs::Auth::signed_text_of, avm_num::specs::Lists::be))]
pub fn signed_text(seq: u64, hash: &Digest) -> [u8; 44]
    ensures { result ≡ signed_text_of seq hash.now.0 }
{
    let mut text = [0; 44];
    text[..4].copy_from_slice(b"AVMA");
    text[4..12].copy_from_slice(&seq.to_be_bytes());
    text[12..].copy_from_slice(&hash.0);
    text
}

/// Writes an authenticator at the end. What it writes is read back.
#[tactic(auto, unfolding(avm_model::specs::Auth::auth_bytes), using(avm_num::proofs::Writes::written))]
pub fn put_auth(out: &mut Room, seq: u64, hash: &Digest, sig: &[u8])
    requires short { length sig.now < 2 ^ 32 }
    requires room { 44 + length sig.now ≤ left out.old }
    ensures value { out.new ≡ with_bytes out.old (auth_bytes (record { seq = seq; hash = hash.now.0; sig = sig.now })) }
    ensures left { left out.new + (44 + length sig.now) ≡ left out.old }
    ensures again { (a : AuthData) (rest : List ℕ) → FitsAuth a → auth_at (auth_bytes a ++ rest) ≡ Some (a, rest) }
{
    out.put_u64(seq);
    out.put(&hash.0);
    out.put_u32(sig.len() as u32);
    out.put(sig);
}
