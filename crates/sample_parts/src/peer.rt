// The other node: its log, and the packets of its entries.
ghost use Rattle.std.specs.Prelude.{◌≡◌, ◌≤◌, ◌<◌, ◌^◌, ◌+◌, [], length, IfOk};
ghost use Rattle.avm_num.specs.Room.{left};
ghost use Rattle.avm_model.specs.Auth.{signed_text_of};
ghost use Rattle.avm_model.specs.Chain.{next_hash};
ghost use Rattle.avm_model.specs.Keys.{HasTypes, public_of, sig_of};
ghost use Rattle.avm_model.specs.LmsTypes.{height_of};
ghost use Rattle.avm_model.specs.Packet.{data_bytes, ack_bytes, send_bytes, recv_bytes};
ghost use Rattle.lms_signer.specs.Views.{key_data};
ghost use Rattle.sample_parts.specs.PeerLog.{new_log, sending, receiving, data_of, ack_of};

use avm_auth::signed_text;
use avm_hash::Digest;
use avm_num::{NoMemory, Room};
use lms_signer::KeyFile;
use lms_tree::LmsKey;
use log_chain::next;
use peer_packet::{put_ack, put_data};
use std::alloc::Global;
use std::marker::Model;

/// A node whose log is a chain of its own.
#[derive(Drop)]
pub struct Peer {
    key: LmsKey,
    last: u64,
    hash: Digest,
    signature: Room,
    content: Room,
    packet: Room,
    ghost signature_room: { signature.capacity ≡ 9324 },
    ghost content_room: { content.capacity ≡ 10429 },
    ghost packet_room: { packet.capacity ≡ 20000 },
}

impl Model for Peer {
    ghost use Rattle.sample_parts.specs.Peers.{PeerData};

    ghost Value = { PeerData };

    ghost view = { λ p. record { log = record { key = p.key; last = p.last; hash = p.hash.0 }; packet = p.packet.bytes } };
}

/// The most bytes of a signature, of a content and of a packet.
const LONGEST_SIGNATURE: usize = 9_324;

const LONGEST_CONTENT: usize = 10_429;

const LONGEST_PACKET: usize = 20_000;

/// Does nothing. Its clause says what the type says.
fn is_digest(bytes: &[u8; 32])
    ensures { length bytes.now ≡ 32 }
{}

/// Makes the signature of a number and a hash at a leaf.
#[tactic(auto, unfolding(avm_num::specs::Room::left))]
fn sign(key: &LmsKey, leaf: u32, seq: u64, hash: &Digest, signature: &mut Room)
    requires leaf { leaf < 2 ^ height_of key.now.lms }
    requires room { signature.old.capacity ≡ 9324 }
    ensures bytes { signature.new.bytes ≡ sig_of key.now leaf (signed_text_of seq hash.now.0) }
    ensures short { length signature.new.bytes ≤ 9324 }
    ensures room { signature.new.capacity ≡ 9324 }
{
    signature.clear();
    key.signature_len();
    let text = signed_text(seq, hash);
    key.sign(leaf, &text, signature);
}

/// Makes the content of a SEND entry to node 0.
#[tactic(auto, unfolding(avm_num::specs::Room::left))]
fn write_send(content: &mut Room, count: u64, number: u64, payload: &[u8])
    requires few { length payload.now ≤ 1024 }
    requires room { content.old.capacity ≡ 10429 }
    ensures bytes { content.new.bytes ≡ send_bytes (record { count = count; peer = 0; number = number; payload = payload.now }) }
    ensures short { length content.new.bytes ≤ 10429 }
    ensures room { content.new.capacity ≡ 10429 }
{
    content.clear();
    content.put_u64(count);
    content.put_u32(0);
    content.put_u64(number);
    content.put(payload);
}

/// Makes the content of a RECV entry.
#[tactic(auto, unfolding(avm_num::specs::Room::left))]
fn write_recv(content: &mut Room, count: u64, message: &[u8])
    requires few { length message.now ≤ 10421 }
    requires room { content.old.capacity ≡ 10429 }
    ensures bytes { content.new.bytes ≡ recv_bytes (record { count = count; packet = message.now }) }
    ensures short { length content.new.bytes ≤ 10429 }
    ensures room { content.new.capacity ≡ 10429 }
{
    content.clear();
    content.put_u64(count);
    content.put(message);
}

/// Makes the DATA packet of an entry of node 1.
#[tactic(auto, unfolding(avm_num::specs::Room::left))]
fn write_data(packet: &mut Room, seq: u64, before: &Digest, content: &[u8], signature: &[u8])
    requires content { length content.now ≤ 10429 }
    requires signature { length signature.now ≤ 9324 }
    requires room { packet.old.capacity ≡ 20000 }
    ensures bytes { packet.new.bytes ≡ data_bytes (record { from = 1; seq = seq; before = before.now.0; content = content.now; sig = signature.now }) }
    ensures room { packet.new.capacity ≡ 20000 }
{
    is_digest(&before.0);
    packet.clear();
    put_data(packet, 1, seq, before, content, signature);
}

/// Makes the ACK packet of an entry of node 1.
#[tactic(auto, unfolding(avm_num::specs::Room::left))]
fn write_ack(packet: &mut Room, seq: u64, before: &Digest, content: &[u8], signature: &[u8])
    requires content { length content.now ≤ 10429 }
    requires signature { length signature.now ≤ 9324 }
    requires room { packet.old.capacity ≡ 20000 }
    ensures bytes { packet.new.bytes ≡ ack_bytes (record { from = 1; seq = seq; before = before.now.0; content = content.now; sig = signature.now }) }
    ensures room { packet.new.capacity ≡ 20000 }
{
    is_digest(&before.0);
    packet.clear();
    put_ack(packet, 1, seq, before, content, signature);
}

impl Peer {
    /// A node with this key and an empty log. It alone takes memory.
    pub fn new(alloc: Global, key: &KeyFile) -> Result<Peer, NoMemory>
        requires { HasTypes (key_data key.now) }
        ensures log { IfOk result (λ p. p.log ≡ new_log (key_data key.now)) }
        ensures packet { IfOk result (λ p. p.packet ≡ []) }
    {
        let Ok(made) = LmsKey::make(alloc, key.lms, key.ots, key.id, key.seed) else {
            return Err(NoMemory);
        };
        Ok(Peer {
            key: made,
            last: 0,
            hash: Digest([0; 32]),
            signature: Room::new(alloc, LONGEST_SIGNATURE)?,
            content: Room::new(alloc, LONGEST_CONTENT)?,
            packet: Room::new(alloc, LONGEST_PACKET)?,
        })
    }

    /// The public key.
    pub fn public(&self) -> [u8; 56]
        ensures { result ≡ public_of self.now.log.key }
    {
        self.key.public()
    }

    /// Logs a message to node 0, and makes its DATA packet.
    pub fn send(&mut self, number: u64, payload: &[u8])
        requires leaf { self.old.log.last < 2 ^ height_of self.old.log.key.lms }
        requires few { length payload.now ≤ 1024 }
        ensures { self.new ≡ record { log = sending self.old.log number payload.now; packet = data_of self.old.log number payload.now } }
    {
        let _leaves = self.key.leaves();
        let seq = self.last + 1;
        let before = self.hash;
        write_send(&mut self.content, seq, number, payload);
        self.hash = next(&before, seq, 8, self.content.bytes());
        sign(
            &self.key,
            self.last as u32,
            seq,
            &self.hash,
            &mut self.signature,
        );
        self.last = seq;
        write_data(
            &mut self.packet,
            seq,
            &before,
            self.content.bytes(),
            self.signature.bytes(),
        );
    }

    /// Logs the receipt of a DATA packet, and makes the ACK packet of it.
    pub fn answer(&mut self, message: &[u8])
        requires leaf { self.old.log.last < 2 ^ height_of self.old.log.key.lms }
        requires few { length message.now ≤ 10421 }
        ensures { self.new ≡ record { log = receiving self.old.log message.now; packet = ack_of self.old.log message.now } }
    {
        let _leaves = self.key.leaves();
        let seq = self.last + 1;
        let before = self.hash;
        write_recv(&mut self.content, seq, message);
        self.hash = next(&before, seq, 5, self.content.bytes());
        sign(
            &self.key,
            self.last as u32,
            seq,
            &self.hash,
            &mut self.signature,
        );
        self.last = seq;
        write_ack(
            &mut self.packet,
            seq,
            &before,
            self.content.bytes(),
            self.signature.bytes(),
        );
    }

    /// The packet that was made last.
    pub fn packet(&self) -> &[u8]
        ensures { result.now ≡ self.now.packet }
    {
        self.packet.bytes()
    }
}
