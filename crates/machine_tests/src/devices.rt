//! Each register at boot, the queues at their limits, the clock, sending, the doorbell, and what a head puts.

ghost use Rattle.std.specs.Prelude.{◌≡◌, ◌<◌, ◌-◌, ◌^◌, All, IsTrue};
ghost use Rattle.std.specs.Bool.{OnTrue};
ghost use Rattle.avm_model.specs.Bounds.{is_row};

use guest_dev::{Bell, DevGot, Devices, Peer, Regs};
use std::alloc::Global;

/// In place of a loaded value: nothing, or the clock is asked for.
const NOTHING: u64 = 1 << 32;

const ASKS: u64 = 1 << 33;

/// An address, what a load gives at boot, and whether something can be stored.
const TABLE: [(u32, u64, bool); 39] = [
    (0x1000_0000, NOTHING, true),
    (0x1000_0004, 0xffff_ffff, false),
    (0x1000_0008, ASKS, false),
    (0x1000_000c, 0, false),
    (0x1000_0010, NOTHING, true),
    (0x1000_0014, 0xffff_ffff, false),
    (0x1000_0018, 0xffff_ffff, false),
    (0x1000_001c, NOTHING, true),
    (0x1000_0020, 0, true),
    (0x1000_0024, 0, true),
    (0x1000_0028, NOTHING, true),
    (0x1000_002c, 0, false),
    (0x1000_0030, NOTHING, false),
    (0x1000_0034, NOTHING, false),
    (0x1000_0038, NOTHING, false),
    (0x1000_003c, NOTHING, false),
    (0x0fff_fffc, NOTHING, false),
    (0x1000_0001, NOTHING, false),
    (0x1000_0002, NOTHING, false),
    (0x1000_0006, NOTHING, false),
    (0x1000_0022, NOTHING, false),
    (0x1000_0ffc, NOTHING, false),
    (0x1000_1000, 0, false),
    (0x1000_1001, NOTHING, false),
    (0x1000_1002, NOTHING, false),
    (0x1000_13fc, 0, false),
    (0x1000_13fd, NOTHING, false),
    (0x1000_1400, NOTHING, false),
    (0x1000_1ffc, NOTHING, false),
    (0x1000_2000, 0, true),
    (0x1000_2001, NOTHING, false),
    (0x1000_2003, NOTHING, false),
    (0x1000_23fc, 0, true),
    (0x1000_23fd, NOTHING, false),
    (0x1000_23ff, NOTHING, false),
    (0x1000_2400, NOTHING, false),
    (0, NOTHING, false),
    (0x8000_0000, NOTHING, false),
    (0xffff_fffc, NOTHING, false),
];

/// A row with a key of LMS type 5 and OTS type 4 (RFC 8554, section 5.1).
#[tactic(auto, unfolding(avm_model::specs::LmsValid::has_types))]
fn row(id: u8) -> Peer
    requires low { 0 < id }
    requires high { id < 16 }
    ensures fits { IsTrue (is_row 0 result) }
    ensures id { result.id ≡ id }
    ensures sent { result.sent ≡ 0 }
{
    let mut key = [0; 56];
    key[3] = 5;
    key[7] = 4;
    Peer {
        id,
        key,
        sent: 0,
        acked: 0,
        received: 0,
    }
}

/// Devices of id 0 that know the peers 1 and 3.
fn devices(alloc: Global) -> Option<Devices> {
    let mut peers = Vec::new(alloc);
    peers.push(row(1)).ok()?;
    peers.push(row(3)).ok()?;
    Devices::new(alloc, 0, peers).ok()
}

fn are_low(peers: &[Peer]) -> bool
    ensures { OnTrue result (All (λ p. p.sent < 2 ^ 62 - 1) peers.now) }
{
    peers.iter().all(|p| p.sent < 0x3fff_ffff_ffff_ffff)
}

fn load(d: &mut Devices, addr: u32) -> u64 {
    match d.read(addr) {
        DevGot::Value(value) => value as u64,
        DevGot::Asks => ASKS,
        DevGot::Nothing => NOTHING,
    }
}

fn store(d: &mut Devices, addr: u32, value: u32) -> bool {
    d.line().len() < 128 && are_low(d.peers()) && d.write(addr, value)
}

/// A message of so many bytes.
fn take(d: &mut Devices, peer: u8, len: usize, byte: u8) -> bool {
    let bytes = [byte; 1024];
    len <= 1024 && d.row(peer as u32).is_some() && d.take_message(peer, &bytes[..len])
}

#[test]
fn registers_at_boot(rt: HostRuntime) {
    for &(addr, loaded, stores) in &TABLE {
        let Some(mut d) = devices(rt.alloc()) else {
            panic!(rt; "memory");
        };
        assert_eq!(rt; load(&mut d, addr), loaded, "{addr:x}");
        assert_eq!(rt; store(&mut d, addr, 0xffff_ff41), stores, "{addr:x}");
    }
}

#[test]
fn console(rt: HostRuntime) {
    let Some(mut d) = devices(rt.alloc()) else {
        panic!(rt; "memory");
    };
    assert!(rt; d.take_console(&[1, 2, 3]) && d.take_console(&[7; 1021]));
    assert!(rt; !d.take_console(&[9]) && d.take_console(&[]));
    assert_eq!(rt;
        (d.console(0), d.console(2), d.console(1023), d.console(1024)),
        (Some(1), Some(3), Some(7), None)
    );
    assert_eq!(rt; load(&mut d, 0x1000_0004), 1);
    assert!(rt; !d.is_idle() && d.take_console(&[9]) && !d.take_console(&[9]));
    assert_eq!(rt;
        (
            load(&mut d, 0x1000_0004),
            load(&mut d, 0x1000_0004),
            d.console(1021)
        ),
        (2, 3, Some(9))
    );
    assert!(rt; store(&mut d, 0x1000_0000, 0x1_0248) && store(&mut d, 0x1000_0000, 0x0a));
    assert_eq!(rt; d.line(), [0x48, 0x0a].as_slice());
    let (line, len) = d.take_line();
    assert_eq!(rt; (line[0], line[1], len, d.line().len()), (0x48, 0x0a, 2, 0));
}

#[test]
fn messages(rt: HostRuntime) {
    let Some(mut d) = devices(rt.alloc()) else {
        panic!(rt; "memory");
    };
    assert!(rt;
        d.is_idle()
            && take(&mut d, 3, 5, 0xa5)
            && take(&mut d, 1, 0, 0)
            && take(&mut d, 1, 1024, 0x5a)
    );
    for _ in 0..5 {
        assert!(rt; take(&mut d, 3, 4, 1));
    }
    assert!(rt; !take(&mut d, 3, 4, 1) && !take(&mut d, 2, 4, 1));
    assert_eq!(rt;
        (load(&mut d, 0x1000_0014), load(&mut d, 0x1000_0018)),
        (5, 3)
    );
    assert_eq!(rt;
        (
            load(&mut d, 0x1000_1000),
            load(&mut d, 0x1000_1004),
            load(&mut d, 0x1000_1008)
        ),
        (0xa5a5_a5a5, 0xa5, 0)
    );
    assert_eq!(rt; d.message(1).map(|m| (m.0, m.1.len())), Some((1, 0)));
    assert!(rt; store(&mut d, 0x1000_001c, 0) && d.message(7).is_none());
    assert_eq!(rt;
        (
            load(&mut d, 0x1000_0014),
            load(&mut d, 0x1000_0018),
            load(&mut d, 0x1000_1000)
        ),
        (0, 1, 0)
    );
    assert!(rt; store(&mut d, 0x1000_001c, 0) && take(&mut d, 1, 4, 2));
    assert_eq!(rt;
        (load(&mut d, 0x1000_0014), load(&mut d, 0x1000_13fc)),
        (1024, 0x5a5a_5a5a)
    );
    for _ in 0..8 {
        assert!(rt; store(&mut d, 0x1000_001c, 0));
    }
    assert_eq!(rt;
        (load(&mut d, 0x1000_0014), load(&mut d, 0x1000_1000)),
        (0xffff_ffff, 0)
    );
}

#[test]
fn clock(rt: HostRuntime) {
    let Some(mut d) = devices(rt.alloc()) else {
        panic!(rt; "memory");
    };
    assert!(rt; !d.pending());
    d.put_clock(0x1122_3344_5566_7788);
    assert!(rt; d.pending());
    assert_eq!(rt;
        (load(&mut d, 0x1000_000c), load(&mut d, 0x1000_0008)),
        (0, 0x5566_7788)
    );
    assert_eq!(rt;
        (
            load(&mut d, 0x1000_000c),
            load(&mut d, 0x1000_0008),
            d.pending()
        ),
        (0x1122_3344, ASKS, false)
    );
}

#[test]
fn sending(rt: HostRuntime) {
    let Some(mut d) = devices(rt.alloc()) else {
        panic!(rt; "memory");
    };
    // TX_PEER, TX_LEN, the result, and the number that is sent, 0 for none.
    let tries: [(u32, u32, u64, u64); 7] = [
        (0, 0, 1, 0),
        (2, 1025, 1, 0),
        (1, 1025, 2, 0),
        (1, 1024, 0, 1),
        (1, 1025, 2, 0),
        (1, 0, 3, 0),
        (3, 0, 0, 1),
    ];
    for (peer, len, result, number) in tries {
        assert!(rt; store(&mut d, 0x1000_0020, peer) && store(&mut d, 0x1000_0024, len));
        assert!(rt; are_low(d.peers()));
        assert_eq!(rt; d.sending().map_or(0, |s| s.number), number, "{peer} {len}");
        assert!(rt; store(&mut d, 0x1000_0028, 0));
        assert_eq!(rt; load(&mut d, 0x1000_002c), result, "{peer} {len}");
    }
    d.count_ack(1);
    assert!(rt; store(&mut d, 0x1000_0020, 1) && are_low(d.peers()));
    assert_eq!(rt;
        d.sending().map_or((0, 0, 9), |s| (s.peer, s.number, s.len)),
        (1, 2, 0)
    );
}

#[test]
fn rows_and_what_a_head_puts(rt: HostRuntime) {
    let Some(mut d) = devices(rt.alloc()) else {
        panic!(rt; "memory");
    };
    let Some(one) = d.row(3) else {
        panic!(rt; "row");
    };
    assert!(rt; one.received < 0x3fff_ffff_ffff_ffff);
    assert_eq!(rt;
        (d.own(), d.peers().len(), d.row(2).is_none(), one.id),
        (0, 2, true, 3)
    );
    d.count_message(3);
    assert_eq!(rt; d.row(3).map_or(0, |p| p.received), 1);
    let regs = Regs {
        latch: 1,
        peer: 2,
        len: 3,
        result: 3,
    };
    d.set_regs(regs);
    d.set_line(b"abc");
    d.set_window(&[0x77; 1024]);
    assert!(rt; d.regs() == regs && d.line() == b"abc".as_slice() && d.window()[1023] == 0x77);
    assert_eq!(rt;
        (load(&mut d, 0x1000_002c), load(&mut d, 0x1000_23fc)),
        (3, 0x7777_7777)
    );
    assert!(rt; store(&mut d, 0x1000_23fc, 0x0403_0201));
    assert_eq!(rt;
        (
            d.window()[1020],
            d.window()[1023],
            load(&mut d, 0x1000_23fc)
        ),
        (1, 4, 0x0403_0201)
    );
}

/// The words of the doorbell in version 2, as in `TABLE`.
const BELL: [(u32, u64, bool); 4] = [
    (0x1000_0030, 0, true),
    (0x1000_0034, 0, false),
    (0x1000_0038, NOTHING, true),
    (0x1000_003c, NOTHING, false),
];

#[test]
fn doorbell(rt: HostRuntime) {
    let Ok(mut d) = Devices::with_bell(rt.alloc(), 0, Vec::new(rt.alloc())) else {
        panic!(rt; "memory");
    };
    for (addr, loaded, stores) in BELL {
        assert_eq!(rt; load(&mut d, addr), loaded, "{addr:x}");
        assert_eq!(rt; store(&mut d, addr, 0), stores, "{addr:x}");
    }
    assert_eq!(rt;
        (d.version(), d.ring(0x8000_0010), d.bell().state),
        (2, 0x8000_0010, 0)
    );
    assert!(rt; store(&mut d, 0x1000_0030, 0x8000_0017));
    assert_eq!(rt;
        (load(&mut d, 0x1000_0030), d.ring(0x8000_0010)),
        (0x8000_0014, 0x8000_0014)
    );
    assert_eq!(rt;
        (load(&mut d, 0x1000_0034), d.ring(0x8000_0018)),
        (0x8000_0010, 0x8000_0018)
    );
    let rung = Bell {
        vector: 0x8000_0014,
        saved: 0x8000_0010,
        state: 2,
    };
    assert!(rt; d.bell() == rung && d.take_return().is_none());
    assert!(rt; store(&mut d, 0x1000_0038, 1));
    assert_eq!(rt;
        (d.take_return(), d.take_return(), d.bell().state),
        (Some(0x8000_0014), None, 1)
    );
    assert!(rt; store(&mut d, 0x1000_0038, 1));
    assert_eq!(rt; (d.take_return(), d.bell().state), (Some(0x8000_0010), 0));
    assert!(rt; store(&mut d, 0x1000_0038, 1) && d.take_return().is_none());
}
