//! The packets that come in, with the messages in them.

ghost use Rattle.std.specs.Prelude.{◌≡◌, option_map, IfSome};
ghost use Rattle.avm_model.specs.Packet.{send_at, recv_at, FitsSend, IsData, IsAck};
ghost use Rattle.avm_model.specs.Offer.{data_in as data_in_lem, ack_in as ack_in_lem};
ghost use Rattle.log_entry.specs.Views.{content_view};
ghost use Rattle.replayer.specs.Messages.{message_view, received_view, data_view, ack_view, sent_by, came_by};

use log_entry::{Body, Content, Frame, ack_body, content, data_body};

/// The content of a SEND entry: a message of a number to a peer.
#[derive(Clone, Copy)]
pub struct Message<'a> {
    pub count: u64,
    pub peer: u32,
    pub number: u64,
    pub payload: &'a [u8],
}

/// The content of a RECV entry: the DATA packet that came.
#[derive(Clone, Copy)]
pub struct Received<'a> {
    pub count: u64,
    pub packet: &'a [u8],
}

/// A DATA packet, and its message.
#[derive(Clone, Copy)]
pub struct DataPacket<'a> {
    pub body: Body<'a>,
    pub message: Message<'a>,
}

/// An ACK packet, and the DATA packet in it.
#[derive(Clone, Copy)]
pub struct AckPacket<'a> {
    pub body: Body<'a>,
    pub inner: DataPacket<'a>,
}

fn as_message<'a>(content: Content<'a>) -> Option<Message<'a>>
    ensures value { option_map message_view result ≡ sent_by (content_view content.entry) }
{
    match content {
        Content::Send {
            count,
            peer,
            number,
            payload,
        } => Some(Message {
            count,
            peer,
            number,
            payload,
        }),
        _ => None,
    }
}

fn as_received<'a>(content: Content<'a>) -> Option<Received<'a>>
    ensures { option_map received_view result ≡ came_by (content_view content.entry) }
{
    match content {
        Content::Recv { count, packet } => Some(Received { count, packet }),
        _ => None,
    }
}

/// The message that a SEND entry's content is.
fn send_content<'a>(bytes: &'a [u8]) -> Option<Message<'a>>
    ensures value { option_map message_view result ≡ send_at bytes.now }
    ensures fits { IfSome result (λ m. FitsSend (message_view m)) }
{
    let frame = Frame {
        seq: 1,
        kind: 8,
        content: bytes,
    };
    match content(&frame) {
        Some(content) => as_message(content),
        None => None,
    }
}

/// The packet that a RECV entry's content holds.
fn recv_content<'a>(bytes: &'a [u8]) -> Option<Received<'a>>
    ensures { option_map received_view result ≡ recv_at bytes.now }
{
    let frame = Frame {
        seq: 1,
        kind: 5,
        content: bytes,
    };
    match content(&frame) {
        Some(content) => as_received(content),
        None => None,
    }
}

/// The bytes as a DATA packet.
pub fn data_in<'a>(bytes: &'a [u8]) -> Option<DataPacket<'a>>
    ensures value { option_map data_view result ≡ data_in_lem bytes.now }
    ensures fits { IfSome result (λ d. FitsSend (data_view d).message) }
    ensures packet { IfSome result (λ _. IsData bytes.now) }
{
    let body = data_body(bytes)?;
    let message = send_content(body.content)?;
    Some(DataPacket { body, message })
}

/// The bytes as an ACK packet.
pub fn ack_in<'a>(bytes: &'a [u8]) -> Option<AckPacket<'a>>
    ensures value { option_map ack_view result ≡ ack_in_lem bytes.now }
    ensures fits { IfSome result (λ a. FitsSend (ack_view a).inner.message) }
    ensures packet { IfSome result (λ _. IsAck bytes.now) }
{
    let body = ack_body(bytes)?;
    let received = recv_content(body.content)?;
    let inner = data_in(received.packet)?;
    Some(AckPacket { body, inner })
}
