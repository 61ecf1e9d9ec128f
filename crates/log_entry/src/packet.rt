ghost use Rattle.std.specs.Prelude.{◌≡◌, option_map, is_some, length, MatchBool};
ghost use Rattle.avm_num.specs.Bytes.{Takes};
ghost use Rattle.avm_model.specs.Packet.{packet_at, data_at, ack_at, send_at, recv_at, IsData, IsAck};
ghost use Rattle.log_entry.specs.Views.{body_view};

use crate::parts::{take_count, take_ordinal, take_signature};
use crate::reading::{recv, send};
use avm_model::Digest;
use avm_num::{View, are_bytes};

/// A packet's parts: the sender, the number of the entry that it committed to, the hash before that entry, the entry's
/// content, and the signature.
#[derive(Clone, Copy)]
pub struct Body<'a> {
    pub from: u32,
    pub seq: u64,
    pub before: Digest,
    pub content: &'a [u8],
    pub sig: &'a [u8],
}

fn digest_of(bytes: &[u8]) -> Digest
    requires { length bytes.now ≡ 32 }
    ensures { result.0 ≡ bytes.now }
{
    let mut digest = [0; 32];
    digest.copy_from_slice(bytes);
    Digest(digest)
}

/// The parts of a packet with this first byte, the content not judged.
#[tactic(auto, unfolding(avm_model::specs::Packet::packet_at))]
fn take_body<'a>(view: &mut View<'a>, tag: u8) -> Option<Body<'a>>
    ensures { Takes body_view result view.old view.new (packet_at tag view.old) }
{
    let mut rest = View::new(view.rest());
    if rest.take_u8()? != tag {
        return None;
    }
    let from = rest.take_u32()?;
    let seq = take_ordinal(&mut rest)?;
    let before = rest.take(32)?;
    let len = rest.take_u32()?;
    let content = rest.take(len as usize)?;
    let sig = take_signature(&mut rest)?;
    *view = rest;
    Some(Body {
        from,
        seq,
        before: digest_of(before),
        content,
        sig,
    })
}

#[tactic(auto, unfolding(avm_model::specs::Packet::send_at), using(crate::proofs::Options::is_some_map))]
fn is_send(bytes: &[u8]) -> bool
    ensures { result ≡ is_some (send_at bytes.now) }
{
    let mut view = View::new(bytes);
    match take_count(&mut view) {
        Some(count) => send(count, view.rest()).is_some(),
        None => false,
    }
}

#[tactic(auto, unfolding(avm_model::specs::Packet::recv_at), using(crate::proofs::Options::is_some_map))]
fn is_recv(bytes: &[u8]) -> bool
    ensures { result ≡ is_some (recv_at bytes.now) }
{
    let mut view = View::new(bytes);
    match take_count(&mut view) {
        Some(count) => recv(count, view.rest()).is_some(),
        None => false,
    }
}

/// The parts of a DATA packet, or none where the bytes are not one.
#[tactic(auto, unfolding(avm_model::specs::Packet::data_at))]
pub fn data_body<'a>(bytes: &'a [u8]) -> Option<Body<'a>>
    ensures { option_map body_view result ≡ data_at bytes.now }
{
    let mut view = View::new(bytes);
    let body = take_body(&mut view, 1)?;
    if !view.rest().is_empty() || !is_send(body.content) {
        return None;
    }
    Some(body)
}

/// The parts of an ACK packet, or none where the bytes are not one.
#[tactic(auto, unfolding(avm_model::specs::Packet::ack_at))]
pub fn ack_body<'a>(bytes: &'a [u8]) -> Option<Body<'a>>
    ensures { option_map body_view result ≡ ack_at bytes.now }
{
    let mut view = View::new(bytes);
    let body = take_body(&mut view, 2)?;
    if !view.rest().is_empty() || !is_recv(body.content) {
        return None;
    }
    Some(body)
}

/// Whether the bytes are a DATA packet.
pub fn is_data(bytes: &[u8]) -> bool
    ensures packet { MatchBool result (IsData bytes.now) (IsData bytes.now → ⊥) }
    ensures exact { result ≡ is_some (data_at bytes.now) }
{
    are_bytes(bytes);
    data_body(bytes).is_some()
}

/// Whether the bytes are an ACK packet.
pub fn is_ack(bytes: &[u8]) -> bool
    ensures packet { MatchBool result (IsAck bytes.now) (IsAck bytes.now → ⊥) }
    ensures exact { result ≡ is_some (ack_at bytes.now) }
{
    are_bytes(bytes);
    ack_body(bytes).is_some()
}
