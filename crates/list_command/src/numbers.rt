// The numbers of packets.
ghost use Rattle.std.specs.Prelude.{◌≡◌, option_map};
ghost use Rattle.avm_model.specs.Packet.{send_at, recv_at};
ghost use Rattle.log_entry.specs.Views.{content_view};
ghost use Rattle.list_command.specs.Numbers.{data_numbers as data_numbers_of, ack_numbers as ack_numbers_of, sent_number, received_packet};

use log_entry::{Content, Frame, ack_body, content, data_body};

fn number_in(content: &Content<'_>) -> Option<u64>
    ensures { result ≡ sent_number (content_view content.now) }
{
    match content {
        Content::Send { number, .. } => Some(*number),
        _ => None,
    }
}

fn packet_in<'a>(content: &Content<'a>) -> Option<&'a [u8]>
    ensures { option_map (λ p. p.now) result ≡ received_packet (content_view content.now) }
{
    match content {
        Content::Recv { packet, .. } => Some(*packet),
        _ => None,
    }
}

// The number of the message that is the content of a SEND entry.
fn message_number(bytes: &[u8]) -> Option<u64>
    ensures { result ≡ option_map (λ s. s.number) (send_at bytes.now) }
{
    let frame = Frame {
        seq: 1,
        kind: 8,
        content: bytes,
    };
    match content(&frame) {
        Some(content) => number_in(&content),
        None => None,
    }
}

// The packet that is the content of a RECV entry.
fn message_packet(bytes: &[u8]) -> Option<&[u8]>
    ensures { option_map (λ p. p.now) result ≡ option_map (λ r. r.packet) (recv_at bytes.now) }
{
    let frame = Frame {
        seq: 1,
        kind: 5,
        content: bytes,
    };
    match content(&frame) {
        Some(content) => packet_in(&content),
        None => None,
    }
}

/// The peer that a DATA packet is from, and the number of its message.
pub fn data_numbers(packet: &[u8]) -> Option<(u32, u64)>
    ensures { result ≡ data_numbers_of packet.now }
{
    let body = data_body(packet)?;
    let number = message_number(body.content)?;
    Some((body.from, number))
}

/// The peer that an ACK packet is from, and the number of the message that it acknowledges.
pub fn ack_numbers(packet: &[u8]) -> Option<(u32, u64)>
    ensures { result ≡ ack_numbers_of packet.now }
{
    let body = ack_body(packet)?;
    let received = message_packet(body.content)?;
    let (_, number) = data_numbers(received)?;
    Some((body.from, number))
}
