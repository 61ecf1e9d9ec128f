ghost use Rattle.std.specs.Prelude.{◌≡◌, ◌+◌, ◌*◌, ◌≤◌, ◌<◌, ◌^◌, length};
ghost use Rattle.avm_model.specs.Device.{MessageState};
ghost use Rattle.avm_num.specs.Room.{with_bytes, left};
ghost use Rattle.std.specs.Int.{w16, w32};
ghost use Rattle.avm_num.specs.Lists.{list_bytes, many_bytes, sized_bytes, be, one};
ghost use Rattle.avm_model.specs.Head.{status_code, hart_bytes, FrontData, TransmitData, message_bytes, peer_bytes, front_bytes, transmit_bytes, words_bytes, bell_bytes};
ghost use Rattle.avm_model.specs.Sizes.{bell_size};

use crate::draft::Draft;
use avm_model::{Bell, Peer, Status};

/// Writes a row.
#[tactic(auto, using(avm_num::proofs::Writes::written))]
fn put_peer(out: &mut Draft, peer: &Peer)
    requires { 81 ≤ left out.old }
    ensures value { out.new ≡ with_bytes out.old (peer_bytes peer.now) }
    ensures left { left out.new + 81 ≡ left out.old }
{
    out.put_u8(peer.id);
    out.put(&peer.key);
    out.put_u64(peer.sent);
    out.put_u64(peer.acked);
    out.put_u64(peer.received);
}

#[tactic(auto, using(avm_num::proofs::Writes::written))]
/// Writes rows, one after another.
fn put_rows(out: &mut Draft, peers: &[Peer])
    requires { 81 * length peers.now ≤ left out.old }
    ensures left { left out.new + 81 * length peers.now ≡ left out.old }
    ensures value { out.new ≡ with_bytes out.old (list_bytes peer_bytes peers.now) }
{
    for peer in peers {
        put_peer(out, peer);
    }
}

#[tactic(auto, using(avm_num::proofs::Writes::written))]
/// Writes words, one after another.
fn put_words(out: &mut Draft, words: &[u32])
    requires { 4 * length words.now ≤ left out.old }
    ensures left { left out.new + 4 * length words.now ≡ left out.old }
    ensures value { out.new ≡ with_bytes out.old (list_bytes (be w32) words.now) }
{
    for word in words {
        out.put_u32(*word);
    }
}

/// Writes who the machine is, and whom it knows.
#[tactic(auto, unfolding(avm_model::specs::Head::front_bytes), using(avm_num::proofs::Writes::written))]
pub fn put_front(out: &mut Draft, own: u8, snap: u32, pages: u32, peers: &[Peer])
    requires few { length peers.now < 16 }
    requires room { 10 + 81 * length peers.now ≤ left out.old }
    ensures value { out.new ≡ with_bytes out.old (front_bytes (record { own = own; snap = snap; pages = pages; peers = peers.now })) }
    ensures left { left out.new + 10 + 81 * length peers.now ≡ left out.old }
{
    out.put_u8(own);
    out.put_u32(snap);
    out.put_u32(pages);
    out.put_u8(peers.len() as u8);
    put_rows(out, peers);
}

/// Writes a message.
#[tactic(auto, using(avm_num::proofs::Writes::written))]
pub fn put_message(out: &mut Draft, peer: u8, payload: &[u8])
    requires short { length payload.now ≤ 1024 }
    requires room { 3 + length payload.now ≤ left out.old }
    ensures value { out.new ≡ with_bytes out.old (message_bytes (record { peer = peer; payload = payload.now })) }
    ensures left { left out.new + 3 + length payload.now ≡ left out.old }
{
    out.put_u8(peer);
    out.put_u16(payload.len() as u16);
    out.put(payload);
}

/// The number of a status in a head.
fn status_number(status: Status) -> u8
    ensures { result ≡ status_code status }
{
    match status {
        Status::Running => 0,
        Status::Waiting => 1,
        Status::Halted => 2,
    }
}

/// Writes registers 1 to 31, and where the machine stands.
#[tactic(auto, unfolding(avm_model::specs::Head::hart_bytes), using(avm_num::proofs::Writes::written))]
pub fn put_hart(out: &mut Draft, x: &[u32], pc: u32, count: u64, status: Status)
    requires registers { length x.now ≡ 31 }
    requires room { 137 ≤ left out.old }
    ensures value { out.new ≡ with_bytes out.old (hart_bytes (record { x = x.now; pc = pc; count = count; status = status })) }
    ensures left { left out.new + 137 ≡ left out.old }
{
    put_words(out, x);
    out.put_u32(pc);
    out.put_u64(count);
    out.put_u8(status_number(status));
}

/// Writes the transmit registers and the window.
#[tactic(auto, unfolding(avm_model::specs::Head::transmit_bytes), using(avm_num::proofs::Writes::written))]
pub fn put_transmit(out: &mut Draft, peer: u32, len: u32, outcome: u32, window: &[u8; 1024])
    requires { 1036 ≤ left out.old }
    ensures value { out.new ≡ with_bytes out.old (transmit_bytes (record { peer = peer; len = len; result = outcome; window = window.now })) }
    ensures left { left out.new + 1036 ≡ left out.old }
{
    out.put_u32(peer);
    out.put_u32(len);
    out.put_u32(outcome);
    out.put(window);
}

/// Writes what a bell holds.
#[tactic(auto, unfolding(avm_model::specs::Head::words_bytes), using(avm_num::proofs::Writes::written))]
fn put_bell_words(out: &mut Draft, bell: Bell)
    requires { 9 ≤ left out.old }
    ensures value { out.new ≡ with_bytes out.old (words_bytes bell) }
    ensures left { left out.new + 9 ≡ left out.old }
{
    out.put_u32(bell.vector);
    out.put_u32(bell.saved);
    out.put_u8(bell.state);
}

/// Writes the bell, which version 1 does not have.
#[tactic(auto, unfolding(avm_model::specs::Head::bell_bytes), using(crate::proofs::Puts::nothing_put))]
pub fn put_bell(out: &mut Draft, bell: Option<Bell>)
    requires { bell_size bell ≤ left out.old }
    ensures { out.new ≡ with_bytes out.old (bell_bytes bell) }
{
    if let Some(bell) = bell {
        put_bell_words(out, bell);
    }
}
