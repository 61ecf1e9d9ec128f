//! Packets and authenticators, each with the signature of its ticket.

ghost use Rattle.std.specs.Prelude.{◌≡◌, ◌≤◌, ◌<◌, ◌+◌, ◌^◌, ℕ, [], length, take, IfOk};
ghost use Rattle.avm_num.specs.Room.{left};
ghost use Rattle.avm_model.specs.Content.{content_bytes, recv, send};
ghost use Rattle.avm_model.specs.Auth.{auth_bytes};
ghost use Rattle.avm_model.specs.Keys.{public_of};
ghost use Rattle.avm_model.specs.LmsTypes.{height_of};
ghost use Rattle.avm_model.specs.Packet.{ack_bytes, data_bytes};
ghost use Rattle.jrnl_store.specs.Kept.{ticket_view};
ghost use Rattle.lms_signer.specs.Signing.{ticket_signature};

use avm_auth::put_auth;
use avm_num::{NoMemory, Room};
use guest_machine::{Machine, Sent};
use jrnl_store::Ticket;
use lms_signer::Signer;
use peer_packet::{put_ack, put_data};
use std::alloc::Global;
use std::marker::Model;

/// The most bytes of a signature, of the content of a SEND or RECV entry, and of a packet.
const LONGEST_SIGNATURE: usize = 9_324;

const LONGEST_CONTENT: usize = 10_429;

const LONGEST_PACKET: usize = 20_000;

/// A key that signs, and room for what it makes.
#[derive(Drop)]
pub struct Press {
    signer: Signer,
    signature: Room,
    content: Room,
    made: Room,
    ghost signature_room: { signature.capacity ≡ 9324 },
    ghost content_room: { content.capacity ≡ 10429 },
    ghost made_room: { made.capacity ≡ 20000 },
}

impl Model for Press {
    ghost use Rattle.record_press.specs.Press.{PressData};

    ghost Value = { PressData };

    ghost view = { λ p. record { key = p.signer; bytes = p.made.bytes } };
}

/// Does nothing. Its clause says what the type says.
fn is_digest(bytes: &[u8; 32])
    ensures { length bytes.now ≡ 32 }
{}

/// Makes the signature of a ticket.
#[tactic(auto, unfolding(avm_num::specs::Room::left))]
fn sign(signer: &Signer, signature: &mut Room, ticket: &Ticket)
    requires leaf { (ticket_view ticket.now).leaf < 2 ^ height_of signer.now.lms }
    requires room { signature.old.capacity ≡ 9324 }
    ensures bytes { signature.new.bytes ≡ ticket_signature signer.now (ticket_view ticket.now) }
    ensures short { length signature.new.bytes ≤ 9324 }
    ensures room { signature.new.capacity ≡ 9324 }
{
    signature.clear();
    signer.sign(ticket, signature);
}

/// Makes the content of a SEND entry.
#[tactic(auto, unfolding(avm_num::specs::Room::left))]
fn write_send(content: &mut Room, count: u64, sent: &Sent, payload: &[u8])
    requires few { length payload.now ≤ 1024 }
    requires room { content.old.capacity ≡ 10429 }
    ensures bytes { content.new.bytes ≡ content_bytes (send count sent.now.peer sent.now.number payload.now) }
    ensures short { length content.new.bytes ≤ 10429 }
    ensures room { content.new.capacity ≡ 10429 }
{
    content.clear();
    content.put_u64(count);
    content.put_u32(sent.peer);
    content.put_u64(sent.number);
    content.put(payload);
}

/// Makes the content of a RECV entry.
#[tactic(auto, unfolding(avm_num::specs::Room::left))]
fn write_recv(content: &mut Room, count: u64, message: &[u8])
    requires few { length message.now ≤ 10421 }
    requires room { content.old.capacity ≡ 10429 }
    ensures bytes { content.new.bytes ≡ content_bytes (recv count message.now) }
    ensures short { length content.new.bytes ≤ 10429 }
    ensures room { content.new.capacity ≡ 10429 }
{
    content.clear();
    content.put_u64(count);
    content.put(message);
}

/// Makes the DATA packet of a content, signed by its ticket.
#[tactic(auto, unfolding(avm_num::specs::Room::left))]
fn write_data(made: &mut Room, own: u32, content: &[u8], ticket: &Ticket, signature: &[u8])
    requires content { length content.now ≤ 10429 }
    requires signature { length signature.now ≤ 9324 }
    requires room { made.old.capacity ≡ 20000 }
    ensures bytes { made.new.bytes ≡ data_bytes (record { from = own; seq = (ticket_view ticket.now).seq; before = (ticket_view ticket.now).before; content = content.now; sig = signature.now }) }
    ensures short { length made.new.bytes ≤ 20000 }
    ensures room { made.new.capacity ≡ 20000 }
{
    let before = ticket.before();
    is_digest(&before.0);
    made.clear();
    put_data(made, own, ticket.seq(), &before, content, signature);
}

/// Makes the ACK packet of a content, signed by its ticket.
#[tactic(auto, unfolding(avm_num::specs::Room::left))]
fn write_ack(made: &mut Room, own: u32, content: &[u8], ticket: &Ticket, signature: &[u8])
    requires content { length content.now ≤ 10429 }
    requires signature { length signature.now ≤ 9324 }
    requires room { made.old.capacity ≡ 20000 }
    ensures bytes { made.new.bytes ≡ ack_bytes (record { from = own; seq = (ticket_view ticket.now).seq; before = (ticket_view ticket.now).before; content = content.now; sig = signature.now }) }
    ensures short { length made.new.bytes ≤ 20000 }
    ensures room { made.new.capacity ≡ 20000 }
{
    let before = ticket.before();
    is_digest(&before.0);
    made.clear();
    put_ack(made, own, ticket.seq(), &before, content, signature);
}

/// Makes the authenticator of a ticket.
#[tactic(auto, unfolding(avm_num::specs::Room::left))]
fn write_auth(made: &mut Room, ticket: &Ticket, signature: &[u8])
    requires signature { length signature.now ≤ 9324 }
    requires room { made.old.capacity ≡ 20000 }
    ensures bytes { made.new.bytes ≡ auth_bytes (record { seq = (ticket_view ticket.now).seq; hash = (ticket_view ticket.now).hash; sig = signature.now }) }
    ensures room { made.new.capacity ≡ 20000 }
{
    made.clear();
    put_auth(made, ticket.seq(), &ticket.hash(), signature);
}

impl Press {
    ghost use Rattle.record_parts.specs.Outs.{auth_by, packet_by};

    /// The press of a key. It alone takes memory.
    pub fn new(alloc: Global, signer: Signer) -> Result<Press, NoMemory>
        ensures { IfOk result (λ p. p ≡ record { key = signer; bytes = [] }) }
    {
        Ok(Press {
            signer,
            signature: Room::new(alloc, LONGEST_SIGNATURE)?,
            content: Room::new(alloc, LONGEST_CONTENT)?,
            made: Room::new(alloc, LONGEST_PACKET)?,
        })
    }

    /// The public key.
    pub fn public(&self) -> [u8; 56]
        ensures { result ≡ public_of self.now.key }
    {
        self.signer.public()
    }

    /// Gives the key back.
    pub fn into_signer(self) -> Signer
        ensures { result ≡ self.key }
    {
        self.signer
    }

    /// Makes the DATA packet of a SEND entry's content, signed at the leaf of its ticket.
    pub fn make_data(&mut self, own: u32, content: &[u8], ticket: &Ticket)
        requires leaf { (ticket_view ticket.now).leaf < 2 ^ height_of self.old.key.lms }
        requires content { length content.now ≤ 10429 }
        ensures value { self.new ≡ record self.old { bytes = data_bytes (packet_by (record { key = self.old.key; own = own }) (ticket_view ticket.now) content.now) } }
        ensures short { length self.new.bytes ≤ 20000 }
    {
        sign(&self.signer, &mut self.signature, ticket);
        write_data(&mut self.made, own, content, ticket, self.signature.bytes());
    }

    /// Makes the ACK packet of a RECV entry's content, signed at the leaf of its ticket.
    pub fn make_ack(&mut self, own: u32, content: &[u8], ticket: &Ticket)
        requires leaf { (ticket_view ticket.now).leaf < 2 ^ height_of self.old.key.lms }
        requires content { length content.now ≤ 10429 }
        ensures value { self.new ≡ record self.old { bytes = ack_bytes (packet_by (record { key = self.old.key; own = own }) (ticket_view ticket.now) content.now) } }
        ensures short { length self.new.bytes ≤ 20000 }
    {
        sign(&self.signer, &mut self.signature, ticket);
        write_ack(&mut self.made, own, content, ticket, self.signature.bytes());
    }

    /// Makes the DATA packet of a message that a step sent, signed at the leaf of its entry's ticket.
    pub fn send(&mut self, machine: &Machine, sent: &Sent, ticket: &Ticket)
        requires leaf { (ticket_view ticket.now).leaf < 2 ^ height_of self.old.key.lms }
        requires few { sent.now.len ≤ 1024 }
        ensures value { self.new ≡ record self.old {
          bytes = data_bytes (packet_by (record { key = self.old.key; own = machine.now.state.devices.own }) (ticket_view ticket.now)
              (content_bytes (send machine.now.state.count sent.now.peer sent.now.number (take sent.now.len machine.now.state.devices.window))));
        } }
        ensures short { length self.new.bytes ≤ 20000 }
    {
        let window = machine.devices().window();
        write_send(
            &mut self.content,
            machine.count(),
            sent,
            &window[..sent.len as usize],
        );
        sign(&self.signer, &mut self.signature, ticket);
        write_data(
            &mut self.made,
            machine.devices().own() as u32,
            self.content.bytes(),
            ticket,
            self.signature.bytes(),
        );
    }

    /// Makes the ACK packet of a message that came at a count, signed at the leaf of its entry's ticket.
    pub fn answer(&mut self, machine: &Machine, count: u64, message: &[u8], ticket: &Ticket)
        requires leaf { (ticket_view ticket.now).leaf < 2 ^ height_of self.old.key.lms }
        requires few { length message.now ≤ 10421 }
        ensures value { self.new ≡ record self.old { bytes = ack_bytes (packet_by (record { key = self.old.key; own = machine.now.state.devices.own }) (ticket_view ticket.now) (content_bytes (recv count message.now))) } }
        ensures short { length self.new.bytes ≤ 20000 }
    {
        write_recv(&mut self.content, count, message);
        sign(&self.signer, &mut self.signature, ticket);
        write_ack(
            &mut self.made,
            machine.devices().own() as u32,
            self.content.bytes(),
            ticket,
            self.signature.bytes(),
        );
    }

    /// Makes the authenticator of a ticket.
    pub fn make_auth(&mut self, ticket: &Ticket)
        requires leaf { (ticket_view ticket.now).leaf < 2 ^ height_of self.old.key.lms }
        ensures { (own : ℕ) → self.new ≡ record self.old { bytes = auth_by (record { key = self.old.key; own = own }) (ticket_view ticket.now) } }
    {
        sign(&self.signer, &mut self.signature, ticket);
        write_auth(&mut self.made, ticket, self.signature.bytes());
    }

    /// What was made last.
    pub fn bytes(&self) -> &[u8]
        ensures { result.now ≡ self.now.bytes }
    {
        self.made.bytes()
    }
}
