//! Whether a packet is from whom it says.

ghost use Rattle.std.specs.Prelude.{◌≡◌};
ghost use Rattle.avm_model.specs.Chain.{committed as committed_lem};
ghost use Rattle.avm_model.specs.Device.{row_of as row_of_lem, find_peer};
ghost use Rattle.avm_model.specs.Offer.{is_authentic};
ghost use Rattle.log_entry.specs.Views.{body_view};
ghost use Rattle.peer_packet.specs.Views.{packet_view};
ghost use Rattle.replayer.specs.Messages.{is_authentic_parcel};

use avm_auth::signed_text;
use avm_hash::Digest;
use guest_dev::Peer;
use lms_tree::verify;
use log_entry::Body;
use peer_packet::{Packet, committed};

/// The place of a peer's row.
fn place_of(peers: &[Peer], id: u32) -> Option<usize>
    ensures { result ≡ find_peer peers.now id }
{
    peers.iter().position(|p| p.id as u32 == id)
}

/// The row of a peer, if it has one.
fn row_of(peers: &[Peer], id: u32) -> Option<Peer>
    ensures { result ≡ row_of_lem peers.now id }
{
    let at = place_of(peers, id)?;
    Some(peers[at])
}

/// Whether a packet's signature verifies, with the hash that its sender committed to.
#[tactic(auto, unfolding(avm_model::specs::Offer::is_authentic))]
fn is_signed(peers: &[Peer], kind: u8, body: &Body<'_>, hash: &Digest) -> bool
    requires { hash.now.0 ≡ committed_lem kind (body_view body.now) }
    ensures { result ≡ is_authentic peers.now kind (body_view body.now) }
{
    match row_of(peers, body.from) {
        None => false,
        Some(row) => verify(&row.key, &signed_text(body.seq, hash), body.sig),
    }
}

/// Whether the signature verifies under the key of the peer that the packet is from, on the signed text of its number
/// and the hash that its sender committed to.
pub fn authentic(peers: &[Peer], packet: &Packet<'_>) -> bool
    ensures { result ≡ is_authentic_parcel peers.now (packet_view packet.now) }
{
    let hash = committed(packet);
    match packet {
        Packet::Data(body) => is_signed(peers, 8, body, &hash),
        Packet::Ack(body) => is_signed(peers, 5, body, &hash),
    }
}
