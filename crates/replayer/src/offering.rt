//! Packets are offered to a machine.

ghost use Rattle.std.specs.Prelude.{◌≡◌, None, OnOk, OnErr, IfOk};
ghost use Rattle.avm_model.specs.Offer.{OfferData, OfferAck, refused, refuse_packet, packet_offer};
ghost use Rattle.avm_model.specs.Content.{FitsContent};
ghost use Rattle.avm_model.specs.Packet.{IsData, IsAck};
ghost use Rattle.guest_machine.specs.Given.{refusal_of};
ghost use Rattle.replayer.specs.Messages.{data_view, ack_view};
ghost use Rattle.replayer.specs.Taking.{machine_taken, offered_of, content_offered, offer_refusal};

use crate::messages::{ack_in, data_in};
use crate::signed::authentic;
use guest_machine::{Input, Machine, NotTaken};
use peer_packet::Packet;

/// As what a packet was taken.
#[derive(Clone, Copy, Debug, PartialEq, Eq)]
pub enum Offered {
    /// A DATA packet: the message in it was queued.
    Recv,
    /// An ACK packet: the message sent to the peer is no longer outstanding.
    Acked,
}

/// Takes the bytes as a DATA packet, or tells the first condition that fails; then the machine is as before.
#[tactic(auto, unfolding(avm_model::specs::Offer::refused, avm_model::specs::Offer::taken))]
pub fn take_data(machine: &mut Machine, bytes: &[u8]) -> Result<(), NotTaken>
    ensures refusal { refusal_of result ≡ refused machine.old.state (OfferData bytes.now) }
    ensures ok { OnOk result (machine.new ≡ machine_taken machine.old (OfferData bytes.now)) }
    ensures packet { OnOk result (IsData bytes.now) }
    ensures err { OnErr result (machine.new ≡ machine.old) }
{
    let Some(data) = data_in(bytes) else {
        return Err(NotTaken::NotPacket);
    };
    let devices = machine.devices();
    if devices.row(data.body.from).is_none() {
        return Err(NotTaken::UnknownPeer);
    }
    if data.message.peer != devices.own() as u32 {
        return Err(NotTaken::NotForUs);
    }
    if !authentic(devices.peers(), &Packet::Data(data.body)) {
        return Err(NotTaken::NotAuthentic);
    }
    machine.inject(Input::Message {
        peer: data.body.from,
        number: data.message.number,
        payload: data.message.payload,
    })
}

/// Takes the bytes as an ACK packet, or tells the first condition that fails; then the machine is as before.
#[tactic(auto, unfolding(avm_model::specs::Offer::refused, avm_model::specs::Offer::taken))]
pub fn take_ack(machine: &mut Machine, bytes: &[u8]) -> Result<(), NotTaken>
    ensures refusal { refusal_of result ≡ refused machine.old.state (OfferAck bytes.now) }
    ensures ok { OnOk result (machine.new ≡ machine_taken machine.old (OfferAck bytes.now)) }
    ensures packet { OnOk result (IsAck bytes.now) }
    ensures err { OnErr result (machine.new ≡ machine.old) }
{
    let Some(ack) = ack_in(bytes) else {
        return Err(NotTaken::NotPacket);
    };
    let devices = machine.devices();
    if devices.row(ack.body.from).is_none() {
        return Err(NotTaken::UnknownPeer);
    }
    if ack.inner.body.from != devices.own() as u32 || ack.inner.message.peer != ack.body.from {
        return Err(NotTaken::NotForUs);
    }
    if !authentic(devices.peers(), &Packet::Ack(ack.body)) {
        return Err(NotTaken::NotAuthentic);
    }
    machine.inject(Input::Acked {
        peer: ack.body.from,
        number: ack.inner.message.number,
    })
}

/// Takes a packet, or tells the first condition that fails; then the machine is as before. Bytes that begin with 1 are
/// offered as DATA, with 2 as ACK, and others are no packet. The content of an entry that logs a packet that is taken fits its
/// kind.
pub fn offer(machine: &mut Machine, bytes: &[u8]) -> Result<Offered, NotTaken>
    ensures refusal { offer_refusal result ≡ refuse_packet machine.old.state (packet_offer bytes.now) }
    ensures ok { IfOk result (λ o. (packet_offer bytes.now ≡ Some (offered_of o bytes.now)) × (machine.new ≡ machine_taken machine.old (offered_of o bytes.now))) }
    ensures fits { IfOk result (λ o. FitsContent (content_offered machine.old.state.count o bytes.now)) }
    ensures err { OnErr result (machine.new ≡ machine.old) }
{
    machine.bounds();
    match bytes.first() {
        Some(1) => {
            take_data(machine, bytes)?;
            Ok(Offered::Recv)
        }
        Some(2) => {
            take_ack(machine, bytes)?;
            Ok(Offered::Acked)
        }
        _ => Err(NotTaken::NotPacket),
    }
}
