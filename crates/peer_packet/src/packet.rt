ghost use Rattle.std.specs.Prelude.{◌≡◌, List, ℕ, option_map, IfSome, IfNone};
ghost use Rattle.peer_packet.specs.Parcel.{Parcel, parcel_at, parcel_bytes, FitsParcel};
ghost use Rattle.peer_packet.specs.Views.{packet_view};

use avm_num::are_bytes;
use log_entry::{Body, ack_body, data_body};

/// A packet: DATA carries a message, ACK what acknowledges one.
#[derive(Clone, Copy)]
pub enum Packet<'a> {
    Data(Body<'a>),
    Ack(Body<'a>),
}

/// The packet that the bytes are, or none where they are not one.
pub fn read_packet<'a>(bytes: &'a [u8]) -> Option<Packet<'a>>
    ensures found { IfSome result (λ p. FitsParcel (packet_view p) × (bytes.now ≡ parcel_bytes (packet_view p))) }
    ensures none { IfNone result ((p : Parcel) → FitsParcel p → bytes.now ≡ parcel_bytes p → ⊥) }
    ensures exact { option_map packet_view result ≡ parcel_at bytes.now }
{
    are_bytes(bytes);
    read(bytes)
}

fn read<'a>(bytes: &'a [u8]) -> Option<Packet<'a>>
    ensures { option_map packet_view result ≡ parcel_at bytes.now }
{
    match data_body(bytes) {
        Some(body) => Some(Packet::Data(body)),
        None => match ack_body(bytes) {
            Some(body) => Some(Packet::Ack(body)),
            None => None,
        },
    }
}
