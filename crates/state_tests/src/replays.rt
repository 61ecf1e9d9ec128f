//! Logs of small guests, judged. What each log's first fault is comes from an independent program.

ghost use Rattle.std.specs.Prelude.{IsTrue, ◌-◌, ◌^◌, ◌≤◌, IfOk};
ghost use Rattle.avm_model.specs.Bounds.{are_rows, none_past};

use guest_dev::{Devices, Peer};
use guest_machine::Machine;
use log_entry::{Frame, content};
use page_tree::Tree;
use replayer::{Fault, NotTaken, Offered, Replay, offer};
use rv32_mem::Ram;
use std::alloc::{AllocError, Global};

mod guests;
mod packets;
mod prints;

use packets::{ACK, DATA_1, DATA_3, KEY};
use test_guests::{ECHO, READS, RINGS};

type Log<'a> = &'a [(u8, &'a [u8])];

#[tactic(auto, using(guest_machine::proofs::Heads::new_head, page_tree::proofs::Kept::tree_stale))]
fn replay(alloc: Global, words: &[u32], snap: u32, rows: Vec<Peer>) -> Option<Replay>
    requires least { 1024 ≤ snap }
    requires most { snap ≤ 2 ^ 24 }
    requires rows { IsTrue (are_rows 0 0 rows.items) }
    requires none { IsTrue (none_past 0 rows.items) }
    requires sent { IsTrue (none_past (2 ^ 62 - 1) rows.items) }
{
    let Ok(mut ram) = Ram::new(alloc, 1) else {
        return None;
    };
    let mut addr = 0x8000_0000u32;
    for &word in words {
        let _stored = ram.store(addr, 4, word);
        addr = addr.wrapping_add(4);
    }
    let Ok(tree) = Tree::build(alloc, &mut ram) else {
        return None;
    };
    let Ok(devices) = Devices::new(alloc, 0, rows) else {
        return None;
    };
    let _pages = ram.pages();
    Some(Replay::new(Machine::new(devices, ram, snap, 0x8000_0000), tree))
}

/// The number of the first fault, or 0. The log begins with number 2.
fn fault_of(mut replay: Replay, log: Log<'_>) -> u64 {
    let mut seq = 1u64;
    for &(kind, bytes) in log {
        seq = seq.wrapping_add(1);
        let frame = Frame {
            seq,
            kind,
            content: bytes,
        };
        if content(&frame).is_none() {
            return u64::MAX;
        }
        if let Err(fault) = replay.entry(&frame) {
            return fault.seq;
        }
    }
    0
}

fn alone(alloc: Global, words: &[u32], log: Log<'_>) -> Option<u64> {
    Some(fault_of(replay(alloc, words, 1024, Vec::new(alloc))?, log))
}

/// A replay of a machine of version 2.
#[tactic(auto, using(guest_machine::proofs::Heads::new_head_bell, page_tree::proofs::Kept::tree_stale))]
fn with_bell(alloc: Global, words: &[u32], rows: Vec<Peer>) -> Option<Replay>
    requires rows { IsTrue (are_rows 0 0 rows.items) }
    requires none { IsTrue (none_past 0 rows.items) }
    requires sent { IsTrue (none_past (2 ^ 62 - 1) rows.items) }
{
    let Ok(mut ram) = Ram::new(alloc, 1) else {
        return None;
    };
    let mut addr = 0x8000_0000u32;
    for &word in words {
        let _stored = ram.store(addr, 4, word);
        addr = addr.wrapping_add(4);
    }
    let Ok(tree) = Tree::build(alloc, &mut ram) else {
        return None;
    };
    let Ok(devices) = Devices::with_bell(alloc, 0, rows) else {
        return None;
    };
    let _pages = ram.pages();
    Some(Replay::new(Machine::new(devices, ram, 1024, 0x8000_0000), tree))
}

/// The row of peer 1.
#[tactic(auto, unfolding(avm_model::specs::LmsValid::has_types))]
fn one_row(alloc: Global) -> Result<Vec<Peer>, AllocError>
    ensures rows { IfOk result (λ v. IsTrue (are_rows 0 0 v.items)) }
    ensures none { IfOk result (λ v. IsTrue (none_past 0 v.items)) }
    ensures sent { IfOk result (λ v. IsTrue (none_past (2 ^ 62 - 1) v.items)) }
{
    let row = Peer {
        id: 1,
        key: KEY,
        sent: 0,
        acked: 0,
        received: 0,
    };
    Ok(vec![in alloc; row]?)
}

fn with_peer(alloc: Global, log: Log<'_>) -> Option<u64> {
    let Ok(rows) = one_row(alloc) else {
        return None;
    };
    Some(fault_of(replay(alloc, ECHO, 1 << 20, rows)?, log))
}

/// A message comes in, is sent back, and is acknowledged.
#[test]
fn messages(rt: HostRuntime) {
    let asked: (u8, &[u8]) = (
        4,
        b"\x00\x00\x00\x00\x00\x00\x00\x15\x00\x00\x00\x00\x00\x00\x00\x00",
    );
    let sent: (u8, &[u8]) = (
        8,
        b"\x00\x00\x00\x00\x00\x00\x60\x18\x00\x00\x00\x01\x00\x00\x00\x00\x00\x00\x00\x01ping",
    );
    let logs: [(Log<'_>, u64); 9] = [
        (&[(5, DATA_1), asked, sent], 0),
        (&[(5, DATA_1), asked, sent, (6, ACK)], 0),
        (&[(5, DATA_1), (5, DATA_1)], 3),
        (&[(5, DATA_3)], 2),
        (&[(5, DATA_1), asked, sent, (6, ACK), (6, ACK)], 6),
        (&[(6, ACK)], 2),
        (
            &[
                (5, DATA_1),
                asked,
                (
                    8,
                    b"\x00\x00\x00\x00\x00\x00\x60\x18\x00\x00\x00\x01\x00\x00\x00\x00\x00\x00\x00\x01pinh",
                ),
            ],
            4,
        ),
        (
            &[
                (5, DATA_1),
                asked,
                (
                    8,
                    b"\x00\x00\x00\x00\x00\x00\x60\x18\x00\x00\x00\x01\x00\x00\x00\x00\x00\x00\x00\x02ping",
                ),
            ],
            4,
        ),
        (
            &[
                (5, DATA_1),
                asked,
                (
                    8,
                    b"\x00\x00\x00\x00\x00\x00\x60\x19\x00\x00\x00\x01\x00\x00\x00\x00\x00\x00\x00\x01ping",
                ),
            ],
            4,
        ),
    ];
    for &(log, fault) in &logs {
        assert_eq!(rt; with_peer(rt.alloc(), log), Some(fault));
    }
}

/// Each refusal of a packet, which leaves the machine: from another peer, to another id, with one byte of the signature
/// changed, with another number, twice, and bytes that are no packet.
#[test]
fn offers(rt: HostRuntime) {
    let rows = one_row(rt.alloc()).expect(&rt, "memory");
    let replay = replay(rt.alloc(), ECHO, 1 << 20, rows).expect(&rt, "memory");
    let (mut machine, _tree) = replay.into_parts();
    let packet: &[u8] = &DATA_1[8..];
    let changes: [(usize, NotTaken); 4] = [
        (4, NotTaken::UnknownPeer),
        (60, NotTaken::NotForUs),
        (1368, NotTaken::NotAuthentic),
        (0, NotTaken::NotPacket),
    ];
    for &(place, why) in &changes {
        let mut changed = [0u8; 1369];
        changed.copy_from_slice(packet);
        changed[place] ^= 4;
        assert!(rt; offer(&mut machine, &changed) == Err(why));
    }
    assert!(rt; offer(&mut machine, &[]) == Err(NotTaken::NotPacket));
    assert!(rt; offer(&mut machine, &DATA_3[8..]) == Err(NotTaken::WrongNumber));
    assert!(rt; offer(&mut machine, &ACK[8..]) == Err(NotTaken::NotOutstanding));
    assert!(rt; offer(&mut machine, packet) == Ok(Offered::Recv));
    assert!(rt; offer(&mut machine, packet) == Err(NotTaken::Repeated));
}

/// After a fault each entry answers it.
#[test]
fn stays(rt: HostRuntime) {
    let mut replay = replay(rt.alloc(), READS, 1024, Vec::new(rt.alloc())).expect(&rt, "memory");
    let clock = Frame {
        seq: 2,
        kind: 4,
        content: b"\x00\x00\x00\x00\x00\x00\x00\x01\x00\x00\x00\x00\x00\x00\x00\x07",
    };
    let halt = Frame {
        seq: 3,
        kind: 9,
        content: b"\x00\x00\x00\x00\x00\x00\x00\x03\x00\x00\x00\x01\x00\x00\x00\x00",
    };
    if content(&clock).is_some() && content(&halt).is_some() {
        assert!(rt; replay.entry(&clock) == Err(Fault { seq: 2 }));
        assert!(rt; replay.entry(&halt) == Err(Fault { seq: 2 }));
    }
}

/// A guest of version 2 whose handler prints what is typed in; what is typed in inside the handler is printed behind it.
#[test]
fn rings(rt: HostRuntime) {
    let at_10: (u8, &[u8]) = (3, b"\x00\x00\x00\x00\x00\x00\x00\x0a\x0a");
    let at_11: (u8, &[u8]) = (3, b"\x00\x00\x00\x00\x00\x00\x00\x0b\x0a");
    let out_12: (u8, &[u8]) = (7, b"\x00\x00\x00\x00\x00\x00\x00\x0c\x0a");
    let out_14: (u8, &[u8]) = (7, b"\x00\x00\x00\x00\x00\x00\x00\x0e\x0a");
    let out_15: (u8, &[u8]) = (7, b"\x00\x00\x00\x00\x00\x00\x00\x0f\x0a");
    let logs: [(Log<'_>, u64); 4] = [
        (&[at_10, out_12], 0),
        (&[at_10, at_11, out_12, out_15], 0),
        (&[at_10, out_14], 3),
        (&[at_10, at_11, out_12, out_14], 5),
    ];
    for &(log, fault) in &logs {
        let replay = with_bell(rt.alloc(), RINGS, Vec::new(rt.alloc())).expect(&rt, "memory");
        assert_eq!(rt; fault_of(replay, log), fault);
    }
}
