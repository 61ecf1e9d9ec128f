//! Messages of a peer, under a key of its own, to a guest that sends each of them back.

ghost use Rattle.std.specs.Prelude.{IsTrue, IfOk, ◌-◌, ◌^◌};
ghost use Rattle.avm_model.specs.Bounds.{are_rows, none_past};

use super::building::{Entry, booted, content, origin_of};
use super::entries::{CLOCK, SEND};
use super::keys::{quick_key, signature};
use super::running::audits_as;
use avm_hash::Digest;
use avm_num::Room;
use guest_dev::Peer;
use lms_tree::LmsKey;
use log_chain::next;
use peer_packet::{put_ack, put_data};
use std::alloc::{AllocError, Global};
use test_guests::ECHO;

const RECV: u8 = 5;

const ACKED: u8 = 6;

/// The public key of the peer, by an independent program.
const PUBLIC: [u8; 56] = [
    0x00, 0x00, 0x00, 0x05, 0x00, 0x00, 0x00, 0x01, 0x00, 0x01, 0x02, 0x03, 0x04, 0x05, 0x06, 0x07,
    0x08, 0x09, 0x0a, 0x0b, 0x0c, 0x0d, 0x0e, 0x0f, 0x4f, 0xb4, 0x50, 0xd0, 0x34, 0xa3, 0x1a, 0x3d,
    0x67, 0x1f, 0xc5, 0x98, 0x0c, 0xa6, 0x33, 0xaa, 0x4d, 0x97, 0xf2, 0x1d, 0xf1, 0x74, 0x90, 0x7b,
    0xfc, 0xcd, 0x1e, 0xf3, 0x63, 0x3f, 0x32, 0x9e,
];

/// What the guest sends back behind the count: message 1 to peer 1, `ping`.
const PING: &[u8] = &[0, 0, 0, 1, 0, 0, 0, 0, 0, 0, 0, 1, 112, 105, 110, 103];

/// The kind of an entry and its count.
type Step = (u8, u64);

/// A message comes at 0, the guest asks for the clock at 21, and sends the message back.
const COMES_BACK: &[Step] = &[(RECV, 0), (CLOCK, 21), (SEND, 24600)];

/// The row of peer 1.
#[tactic(auto, unfolding(avm_model::specs::LmsValid::has_types))]
fn one_row(alloc: Global) -> Result<Vec<Peer>, AllocError>
    ensures rows { IfOk result (λ v. IsTrue (are_rows 0 0 v.items)) }
    ensures none { IfOk result (λ v. IsTrue (none_past 0 v.items)) }
    ensures sent { IfOk result (λ v. IsTrue (none_past (2 ^ 62 - 1) v.items)) }
{
    let row = Peer {
        id: 1,
        key: PUBLIC,
        sent: 0,
        acked: 0,
        received: 0,
    };
    Ok(vec![in alloc; row]?)
}

/// The segment of the guest whose entries behind BOOT are these.
fn segment(alloc: Global, entries: &[Entry<'_>]) -> Option<Vec<u8>> {
    let Ok(rows) = one_row(alloc) else {
        return None;
    };
    let origin = origin_of(alloc, ECHO, 1 << 20, rows)?;
    booted(alloc, &origin, entries)
}

/// The DATA packet of a sender, whose entry 1 sends `ping` with a number to a receiver.
#[tactic(auto, unfolding(avm_num::specs::Room::left))]
fn data(alloc: Global, key: &LmsKey, from: u32, to: u32, number: u64) -> Option<Vec<u8>> {
    let mut message = Vec::from_slice(alloc, &to.to_be_bytes()).ok()?;
    message.extend_from_slice(&number.to_be_bytes()).ok()?;
    message.extend_from_slice(b"ping").ok()?;
    let sent = content(alloc, 9, &message)?;
    let before = Digest([0; 32]);
    let sig = signature(alloc, key, 3, 1, &next(&before, 1, SEND, &sent))?;
    if sent.len() > 24576 || sig.len() > 9324 {
        return None;
    }
    let mut out = Room::new(alloc, 53 + sent.len() + sig.len()).ok()?;
    put_data(&mut out, from, 1, &before, &sent, &sig);
    Vec::from_slice(alloc, out.bytes()).ok()
}

/// The guest's own DATA packet for what it sends, as the peer has it, without a signature.
#[tactic(auto, unfolding(avm_num::specs::Room::left))]
fn echoed(alloc: Global) -> Option<Vec<u8>> {
    let sent = content(alloc, 24600, PING)?;
    if sent.len() > 24576 {
        return None;
    }
    let mut out = Room::new(alloc, 53 + sent.len()).ok()?;
    put_data(&mut out, 0, 4, &Digest([9; 32]), &sent, &[]);
    Vec::from_slice(alloc, out.bytes()).ok()
}

/// The ACK packet of the peer for that message, whose entry 2 received it.
#[tactic(auto, unfolding(avm_num::specs::Room::left))]
fn ack(alloc: Global, key: &LmsKey) -> Option<Vec<u8>> {
    let received = content(alloc, 3, &echoed(alloc)?)?;
    let before = Digest([0; 32]);
    let sig = signature(alloc, key, 4, 2, &next(&before, 2, RECV, &received))?;
    if received.len() > 24576 || sig.len() > 9324 {
        return None;
    }
    let mut out = Room::new(alloc, 53 + received.len() + sig.len()).ok()?;
    put_ack(&mut out, 1, 2, &before, &received, &sig);
    Vec::from_slice(alloc, out.bytes()).ok()
}

/// What stands behind the count of an entry of this kind.
fn behind_count<'a>(kind: u8, packet: &'a [u8], ack: &'a [u8]) -> &'a [u8] {
    match kind {
        RECV => packet,
        ACKED => ack,
        CLOCK => &[0; 8],
        _ => PING,
    }
}

/// The segment whose entries behind BOOT have these kinds and counts.
fn segment_of(alloc: Global, packet: &[u8], ack: &[u8], steps: &[Step]) -> Option<Vec<u8>> {
    let mut entries: Vec<Entry<'_>> = Vec::new(alloc);
    for &(kind, count) in steps {
        entries
            .push((kind, count, behind_count(kind, packet, ack)))
            .ok()?;
    }
    segment(alloc, &entries)
}

/// Whether the audit of a segment without ACKED prints that entry 2 doesn't replay.
fn is_refused(alloc: Global, packet: &[u8]) -> bool {
    match segment_of(alloc, packet, b"", COMES_BACK) {
        Some(segment) => audits_as(alloc, &segment, "refused uncovered 2\n", 2),
        None => false,
    }
}

#[test]
fn a_message_comes_back(rt: HostRuntime) {
    let key = quick_key(rt.alloc(), 0x22).expect(&rt, "memory");
    assert_eq!(rt; key.public(), PUBLIC);
    let packet = data(rt.alloc(), &key, 1, 0, 1).expect(&rt, "memory");
    let ack = ack(rt.alloc(), &key).expect(&rt, "memory");
    let rows: [(&[Step], &str, u8); 6] = [
        (COMES_BACK, "accepted 1 to 4 covered 0\n", 0),
        (
            &[(RECV, 0), (RECV, 0), (CLOCK, 21)],
            "refused uncovered 3\n",
            2,
        ),
        (&[(CLOCK, 21), (SEND, 24600)], "refused uncovered 2\n", 2),
        (
            &[(RECV, 0), (CLOCK, 21), (SEND, 24600), (ACKED, 24600)],
            "accepted 1 to 5 covered 0\n",
            0,
        ),
        (
            &[
                (RECV, 0),
                (CLOCK, 21),
                (SEND, 24600),
                (ACKED, 24600),
                (ACKED, 24600),
            ],
            "refused uncovered 6\n",
            2,
        ),
        (&[(ACKED, 0), (RECV, 0)], "refused uncovered 2\n", 2),
    ];
    for (steps, line, status) in rows {
        let segment = segment_of(rt.alloc(), &packet, &ack, steps).expect(&rt, "memory");
        assert!(rt; audits_as(rt.alloc(), &segment, line, status), "{line}");
    }
}

#[test]
fn messages_that_are_not_taken(rt: HostRuntime) {
    let key = quick_key(rt.alloc(), 0x22).expect(&rt, "memory");
    // the sender, the receiver, and the message's number
    let rows: [(u32, u32, u64); 4] = [(1, 0, 2), (1, 0, 3), (1, 2, 1), (7, 0, 1)];
    for (from, to, number) in rows {
        let packet = data(rt.alloc(), &key, from, to, number).expect(&rt, "memory");
        assert!(rt;
            is_refused(rt.alloc(), &packet),
            "{number} from {from} to {to}"
        );
    }
}

/// The signature stands at 77: its leaf and its type, C at 85, the chains at 117, the tree's type at 8597 and
/// the path at 8601.
#[test]
fn a_changed_signature_is_not_taken(rt: HostRuntime) {
    let key = quick_key(rt.alloc(), 0x22).expect(&rt, "memory");
    for at in [77, 80, 81, 84, 85, 117, 8596, 8597, 8600, 8601, 8760] {
        let mut packet = data(rt.alloc(), &key, 1, 0, 1).expect(&rt, "memory");
        if let Some(byte) = packet.get_mut(at) {
            *byte ^= 1;
        }
        assert!(rt; is_refused(rt.alloc(), &packet), "byte {at}");
    }
}
