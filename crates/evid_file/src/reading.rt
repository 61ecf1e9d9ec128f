ghost use Rattle.std.specs.Prelude.{◌≡◌, ◌<◌, ◌^◌, length, IfSome, IfNone};
ghost use Rattle.std.specs.Option.{option_map};
ghost use Rattle.std.specs.Int.{w32};
ghost use Rattle.avm_num.specs.Bytes.{Takes, number_at};
ghost use Rattle.avm_num.specs.Lists.{sized_at};
ghost use Rattle.avm_model.specs.Evidence.{EvidData, double_at, fork_at, replay_at, body_at, parts_of, evidence_at, evidence_bytes, FitsEvidence};
ghost use Rattle.evid_file.specs.Views.{evidence_view};

use crate::evidence::Evidence;
use avm_auth::read_auth;
use avm_model::Digest;
use avm_num::{View, are_bytes};

const LONGEST: usize = (1 << 26) + (1 << 17);

#[tactic(auto, unfolding(avm_model::specs::Evidence::double_at))]
fn double<'a>(key: [u8; 56], bytes: &'a [u8]) -> Option<Evidence<'a>>
    ensures { option_map evidence_view result ≡ double_at key bytes.now }
{
    let mut view = View::new(bytes);
    let a = read_auth(&mut view)?;
    let b = read_auth(&mut view)?;
    if !view.rest().is_empty() {
        return None;
    }
    Some(Evidence::Double { key, a, b })
}

fn digest_of(bytes: &[u8]) -> Digest
    requires { length bytes.now ≡ 32 }
    ensures { result.0 ≡ bytes.now }
{
    let mut hash = [0; 32];
    hash.copy_from_slice(bytes);
    Digest(hash)
}

fn key_of(bytes: &[u8]) -> [u8; 56]
    requires { length bytes.now ≡ 56 }
    ensures { result ≡ bytes.now }
{
    let mut key = [0; 56];
    key.copy_from_slice(bytes);
    key
}

// A length of four bytes, and that many bytes.
fn take_sized<'a>(view: &mut View<'a>) -> Option<&'a [u8]>
    ensures { Takes (λ p. p.now) result view.old view.new (sized_at (number_at w32) view.old) }
{
    let mut rest = View::new(view.rest());
    let len = rest.take_u32()?;
    let bytes = rest.take(len as usize)?;
    *view = rest;
    Some(bytes)
}

#[tactic(auto, unfolding(avm_model::specs::Evidence::fork_at))]
fn fork<'a>(key: [u8; 56], bytes: &'a [u8]) -> Option<Evidence<'a>>
    ensures { option_map evidence_view result ≡ fork_at key bytes.now }
{
    let mut view = View::new(bytes);
    let start = view.take_u64()?;
    let before = view.take(32)?;
    let frames = take_sized(&mut view)?;
    let top = read_auth(&mut view)?;
    let other = read_auth(&mut view)?;
    if !view.rest().is_empty() {
        return None;
    }
    Some(Evidence::Fork {
        key,
        start,
        before: digest_of(before),
        frames,
        top,
        other,
    })
}

#[tactic(auto, unfolding(avm_model::specs::Evidence::replay_at))]
fn replay<'a>(key: [u8; 56], bytes: &'a [u8]) -> Option<Evidence<'a>>
    ensures { option_map evidence_view result ≡ replay_at key bytes.now }
{
    let mut view = View::new(bytes);
    let segment = take_sized(&mut view)?;
    let top = read_auth(&mut view)?;
    if !view.rest().is_empty() {
        return None;
    }
    Some(Evidence::Replay { key, segment, top })
}

fn body<'a>(form: u8, key: [u8; 56], bytes: &'a [u8]) -> Option<Evidence<'a>>
    ensures { option_map evidence_view result ≡ body_at form key bytes.now }
{
    match form {
        1 => double(key, bytes),
        2 => fork(key, bytes),
        3 => replay(key, bytes),
        _ => None,
    }
}

#[tactic(auto, unfolding(avm_model::specs::Evidence::parts_of))]
fn parts<'a>(bytes: &'a [u8]) -> Option<Evidence<'a>>
    ensures { option_map evidence_view result ≡ parts_of bytes.now }
{
    let mut view = View::new(bytes);
    if view.take_u32()? != 0x41564d45 || view.take_u8()? != 1 {
        return None;
    }
    let key = view.take(56)?;
    let form = view.take_u8()?;
    body(form, key_of(key), view.rest())
}

#[tactic(auto, unfolding(avm_model::specs::Evidence::evidence_at))]
fn within<'a>(bytes: &'a [u8]) -> Option<Evidence<'a>>
    ensures { option_map evidence_view result ≡ evidence_at bytes.now }
{
    if bytes.len() > LONGEST {
        return None;
    }
    parts(bytes)
}

/// The evidence that the bytes are, or none where they are none: of a frame's, a segment's or a key's inside only the
/// length is judged here.
pub fn read_evidence<'a>(bytes: &'a [u8]) -> Option<Evidence<'a>>
    ensures found { IfSome result (λ e. (bytes.now ≡ evidence_bytes (evidence_view e)) × FitsEvidence (evidence_view e)) }
    ensures none { IfNone result ((e : EvidData) → FitsEvidence e → bytes.now ≡ evidence_bytes e → ⊥) }
    ensures exact { option_map evidence_view result ≡ evidence_at bytes.now }
{
    are_bytes(bytes);
    within(bytes)
}
