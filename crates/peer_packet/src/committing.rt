ghost use Rattle.std.specs.Prelude.{◌≡◌};
ghost use Rattle.peer_packet.specs.Parcel.{committed_by};
ghost use Rattle.peer_packet.specs.Views.{packet_view};

use crate::packet::Packet;
use avm_hash::Digest;
use log_chain::next;

/// The hash that the packet's sender committed to: the chain's next hash over the SEND entry of a DATA packet, or the RECV
/// entry of an ACK packet.
pub fn committed(packet: &Packet<'_>) -> Digest
    ensures { result.0 ≡ committed_by (packet_view packet.now) }
{
    match packet {
        Packet::Data(body) => next(&body.before, body.seq, 8, body.content),
        Packet::Ack(body) => next(&body.before, body.seq, 5, body.content),
    }
}
