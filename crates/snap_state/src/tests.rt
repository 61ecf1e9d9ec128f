ghost use Rattle.std.specs.Prelude.{◌≡◌, None, IfSome};

use crate::parts::parts_of;
use crate::{head_len, machine_of, put_head, read_head, state_root};
use avm_hash::Digest;
use avm_num::Room;
use guest_machine::Machine;
use rv32_mem::Ram;
use std::alloc::{AllocError, Global};
use std::rt::HostRuntime;

/// Appends so many times a byte.
fn push_many(out: &mut Vec<u8>, count: usize, byte: u8) -> Result<(), AllocError> {
    for _ in 0..count {
        out.push(byte)?;
    }
    Ok(())
}

/// The peers and lengths of a head that is made here.
#[derive(Clone, Copy)]
struct Shape<'a> {
    own: u8,
    ids: &'a [u8],
    line: usize,
    console: usize,
    messages: u8,
    payload: usize,
    status: u8,
}

/// A row: sent 2, acknowledged 1, received 9.
fn push_peer(out: &mut Vec<u8>, id: u8) -> Result<(), AllocError> {
    out.extend_from_slice(&[id, 0, 0, 0, 5, 0, 0, 0, 4])?;
    push_many(out, 48, 9)?;
    out.extend_from_slice(&[0, 0, 0, 0, 0, 0, 0, 2])?;
    out.extend_from_slice(&[0, 0, 0, 0, 0, 0, 0, 1])?;
    out.extend_from_slice(&[0, 0, 0, 0, 0, 0, 0, 9])
}

/// Who the machine is, with 4 pages, and its hart at count 5.
fn push_front(out: &mut Vec<u8>, shape: Shape<'_>) -> Result<(), AllocError> {
    out.extend_from_slice(&[1, shape.own, 0, 0, 4, 0, 0, 0, 0, 4])?;
    out.push((shape.ids.len() % 256) as u8)?;
    for id in shape.ids {
        push_peer(out, *id)?;
    }
    push_many(out, 124, 3)?;
    out.extend_from_slice(&[128, 0, 0, 0])?;
    out.extend_from_slice(&[0, 0, 0, 0, 0, 0, 0, 5, shape.status])
}

/// A head: the line is of a, the console queue of line ends, and the messages come from the last peer.
fn head(alloc: Global, shape: Shape<'_>) -> Result<Vec<u8>, AllocError> {
    let mut out = Vec::new(alloc);
    push_front(&mut out, shape)?;
    out.extend_from_slice(&[1, 2, 3, 4])?;
    out.push((shape.line % 256) as u8)?;
    push_many(&mut out, shape.line, 97)?;
    out.extend_from_slice(&((shape.console % 65536) as u16).to_be_bytes())?;
    push_many(&mut out, shape.console, 10)?;
    out.push(shape.messages)?;
    let from = shape.ids.last().copied().unwrap_or(0);
    for _ in 0..shape.messages {
        out.push(from)?;
        out.extend_from_slice(&((shape.payload % 65536) as u16).to_be_bytes())?;
        push_many(&mut out, shape.payload, 200)?;
    }
    push_many(&mut out, 1036, 0)?;
    Ok(out)
}

/// A head of 1364 bytes with two peers, a line, a console queue and a message.
fn middle(alloc: Global) -> Result<Vec<u8>, AllocError> {
    let shape = Shape {
        own: 3,
        ids: &[1, 5],
        line: 2,
        console: 3,
        messages: 1,
        payload: 2,
        status: 0,
    };
    head(alloc, shape)
}

/// Whether the bytes with two of them changed are a head.
fn judged(mut bytes: Vec<u8>, first: (usize, u8), second: (usize, u8)) -> bool {
    if let Some(byte) = bytes.get_mut(first.0) {
        *byte = first.1;
    }
    if let Some(byte) = bytes.get_mut(second.0) {
        *byte = second.1;
    }
    read_head(bytes.as_slice())
}

#[test]
fn a_changed_byte_is_judged(rt: HostRuntime) {
    // The place of a byte and its new value, and whether that is a head.
    let rows: [(usize, u8, bool); 81] = [
        (0, 1, true),
        (0, 0, false),
        (0, 2, false),
        (1, 0, true),
        (1, 15, true),
        (1, 16, false),
        (1, 255, false),
        (1, 1, false),
        (1, 5, false),
        (2, 1, false),
        (3, 255, true),
        (4, 3, false),
        (4, 255, true),
        (5, 1, true),
        (6, 1, false),
        (9, 0, false),
        (9, 1, true),
        (9, 3, false),
        (9, 8, true),
        (9, 12, false),
        (10, 0, false),
        (10, 1, false),
        (10, 3, false),
        (11, 0, true),
        (11, 3, false),
        (11, 4, true),
        (11, 5, false),
        (11, 6, false),
        (92, 1, false),
        (92, 0, false),
        (12, 1, false),
        (15, 4, false),
        (15, 9, true),
        (15, 10, false),
        (16, 1, false),
        (19, 0, false),
        (19, 1, true),
        (19, 5, false),
        (20, 255, true),
        (96, 4, false),
        (75, 1, true),
        (75, 0, false),
        (75, 3, false),
        (83, 2, true),
        (83, 0, false),
        (83, 3, false),
        (76, 1, false),
        (84, 63, true),
        (84, 64, false),
        (173, 255, true),
        (297, 255, true),
        (300, 1, false),
        (300, 2, false),
        (300, 4, true),
        (301, 63, true),
        (301, 64, false),
        (308, 2, true),
        (308, 1, false),
        (309, 1, false),
        (309, 2, false),
        (309, 3, false),
        (310, 255, true),
        (314, 1, false),
        (314, 3, false),
        (315, 10, false),
        (316, 10, false),
        (315, 9, true),
        (318, 2, false),
        (319, 0, true),
        (322, 0, false),
        (322, 2, false),
        (323, 1, true),
        (323, 2, false),
        (323, 3, false),
        (325, 1, false),
        (325, 3, false),
        (328, 255, true),
        (332, 255, true),
        (339, 3, true),
        (339, 4, false),
        (1363, 255, true),
    ];
    for (place, value, want) in rows {
        let Ok(bytes) = middle(rt.alloc()) else {
            assert!(&rt; false);
            return;
        };
        assert!(&rt;
            judged(bytes, (place, value), (place, value)) == want,
            "{value} at {place}"
        );
    }
}

#[test]
fn two_changed_bytes_are_judged(rt: HostRuntime) {
    let rows: [((usize, u8), (usize, u8), bool); 11] = [
        ((2, 1), (4, 0), true),
        ((4, 3), (5, 255), false),
        ((8, 16), (9, 0), true),
        ((8, 32), (9, 0), false),
        ((75, 5), (83, 5), true),
        ((75, 6), (83, 6), false),
        ((92, 15), (323, 15), true),
        ((92, 15), (323, 5), false),
        ((92, 16), (323, 16), false),
        ((336, 1), (339, 3), false),
        ((1, 0), (11, 0), false),
    ];
    for (first, second, want) in rows {
        let Ok(bytes) = middle(rt.alloc()) else {
            assert!(&rt; false);
            return;
        };
        assert!(&rt;
            judged(bytes, first, second) == want,
            "{first:?} and {second:?}"
        );
    }
}

#[test]
fn lengths_and_statuses_are_judged(rt: HostRuntime) {
    // The lengths of line and console queue, the messages and the length of each, the status, and whether that is a head.
    let rows: [(usize, usize, u8, usize, u8, bool); 17] = [
        (0, 0, 0, 0, 0, true),
        (127, 0, 0, 0, 0, true),
        (128, 0, 0, 0, 0, false),
        (0, 1024, 0, 0, 0, true),
        (0, 1025, 0, 0, 0, false),
        (0, 0, 8, 0, 0, true),
        (0, 0, 9, 0, 0, false),
        (0, 0, 1, 1024, 0, true),
        (0, 0, 1, 1025, 0, false),
        (0, 0, 0, 0, 1, true),
        (1, 0, 0, 0, 1, true),
        (0, 1, 0, 0, 1, false),
        (0, 0, 1, 0, 1, false),
        (0, 0, 0, 0, 2, true),
        (1, 0, 0, 0, 2, false),
        (0, 5, 2, 7, 2, true),
        (127, 1024, 8, 1024, 0, true),
    ];
    for (line, console, messages, payload, status, want) in rows {
        let shape = Shape {
            own: 7,
            ids: &[0, 1, 2, 3, 4, 5, 6, 8, 9, 10, 11, 12, 13, 14, 15],
            line,
            console,
            messages,
            payload,
            status,
        };
        let Ok(bytes) = head(rt.alloc(), shape) else {
            assert!(&rt; false);
            return;
        };
        assert!(&rt;
            read_head(bytes.as_slice()) == want,
            "{line} {console} {messages} {payload} {status}"
        );
    }
}

#[test]
fn a_head_has_its_length(rt: HostRuntime) {
    let Ok(mut bytes) = middle(rt.alloc()) else {
        assert!(&rt; false);
        return;
    };
    assert!(&rt; bytes.len() == 1364 && read_head(bytes.as_slice()));
    assert!(&rt; bytes.push(0).is_ok() && !read_head(bytes.as_slice()));
    bytes.truncate(1363);
    assert!(&rt; !read_head(bytes.as_slice()));
}

/// The bytes with another version in front, and more behind them.
fn of_version(mut bytes: Vec<u8>, version: u8, more: &[u8]) -> Option<Vec<u8>> {
    if let Some(byte) = bytes.get_mut(0) {
        *byte = version;
    }
    bytes.extend_from_slice(more).ok()?;
    Some(bytes)
}

#[test]
fn versions_and_bells_are_judged(rt: HostRuntime) {
    // The version, what stands behind the transmit window, and whether that is a head.
    let rows: [(u8, &[u8], bool); 22] = [
        (1, &[], true),
        (1, &[0; 9], false),
        (2, &[], false),
        (2, &[0; 8], false),
        (2, &[0; 9], true),
        (2, &[0; 10], false),
        (2, &[0; 18], false),
        (0, &[0; 9], false),
        (3, &[0; 9], false),
        (2, &[0x80, 0, 0, 0x14, 0x80, 0, 0, 0x10, 0], true),
        (2, &[0x80, 0, 0, 0x14, 0x80, 0, 0, 0x10, 1], true),
        (2, &[0x80, 0, 0, 0x14, 0x80, 0, 0, 0x10, 2], true),
        (2, &[0x80, 0, 0, 0x14, 0x80, 0, 0, 0x10, 3], false),
        (2, &[0x80, 0, 0, 0x14, 0x80, 0, 0, 0x10, 255], false),
        (2, &[0x80, 0, 0, 0x15, 0x80, 0, 0, 0x10, 1], false),
        (2, &[0x80, 0, 0, 0x16, 0x80, 0, 0, 0x10, 1], false),
        (2, &[0x80, 0, 0, 0x14, 0x80, 0, 0, 0x11, 1], false),
        (2, &[0x80, 0, 0, 0x14, 0x80, 0, 0, 0x12, 1], false),
        (2, &[0xff, 0xff, 0xff, 0xfc, 0, 0, 0, 0, 2], true),
        (2, &[0, 0, 0, 0, 0xff, 0xff, 0xff, 0xfc, 2], true),
        (2, &[0xff, 0xff, 0xff, 0xff, 0, 0, 0, 0, 2], false),
        (2, &[0, 0, 0, 0, 0xff, 0xff, 0xff, 0xff, 2], false),
    ];
    for (version, more, want) in rows {
        let Ok(head) = middle(rt.alloc()) else {
            assert!(&rt; false);
            return;
        };
        let Some(bytes) = of_version(head, version, more) else {
            assert!(&rt; false);
            return;
        };
        assert!(&rt; read_head(bytes.as_slice()) == want, "{version} {more:?}");
    }
}

/// The machine of a head, with a RAM of zeros.
fn machine_from(alloc: Global, head: &[u8]) -> Option<Machine>
    ensures { IfSome result (λ m. m.state.devices.clock ≡ None) }
{
    let parts = parts_of(head)?;
    let pages = parts.front.pages;
    if pages == 0 || 4096 % pages != 0 {
        return None;
    }
    let ram = Ram::new(alloc, pages).ok()?;
    machine_of(alloc, head, ram).ok()
}

/// Whether the machine of a head has that head.
#[tactic(auto, unfolding(avm_num::specs::Room::left))]
fn is_written_again(alloc: Global, head: &[u8]) -> Option<bool> {
    let machine = machine_from(alloc, head)?;
    let mut room = Room::new(alloc, head_len(&machine)).ok()?;
    put_head(&mut room, &machine);
    Some(room.bytes() == head)
}

/// The head of a machine that boots: one page, K 1024, no peers.
fn booting(alloc: Global) -> Result<Vec<u8>, AllocError> {
    let mut out = Vec::new(alloc);
    out.extend_from_slice(&[1, 0, 0, 0, 4, 0, 0, 0, 0, 1, 0])?;
    push_many(&mut out, 124, 0)?;
    out.push(128)?;
    push_many(&mut out, 1056, 0)?;
    Ok(out)
}

/// A head with all rows and full queues.
fn full(alloc: Global) -> Result<Vec<u8>, AllocError> {
    let shape = Shape {
        own: 7,
        ids: &[0, 1, 2, 3, 4, 5, 6, 8, 9, 10, 11, 12, 13, 14, 15],
        line: 127,
        console: 1024,
        messages: 8,
        payload: 1024,
        status: 0,
    };
    head(alloc, shape)
}

#[test]
fn machines_are_read_and_written(rt: HostRuntime) {
    let bell: &[u8] = &[0x80, 0, 0, 0x14, 0x80, 0, 0, 0x10, 2];
    let heads: [(Result<Vec<u8>, AllocError>, u8, &[u8], usize); 6] = [
        (booting(rt.alloc()), 1, &[], 1192),
        (middle(rt.alloc()), 1, &[], 1364),
        (full(rt.alloc()), 1, &[], 11774),
        (booting(rt.alloc()), 2, &[0; 9], 1201),
        (middle(rt.alloc()), 2, bell, 1373),
        (full(rt.alloc()), 2, bell, 11783),
    ];
    for (head, version, more, len) in heads {
        let Ok(bytes) = head else {
            assert!(&rt; false);
            return;
        };
        let Some(bytes) = of_version(bytes, version, more) else {
            assert!(&rt; false);
            return;
        };
        assert!(&rt; bytes.len() == len);
        assert!(&rt;
            is_written_again(rt.alloc(), bytes.as_slice()) == Some(true),
            "{len} bytes"
        );
    }
}

#[test]
fn a_root_is_that_of_an_independent_program(rt: HostRuntime) {
    let Ok(bytes) = booting(rt.alloc()) else {
        assert!(&rt; false);
        return;
    };
    let Some(machine) = machine_from(rt.alloc(), bytes.as_slice()) else {
        assert!(&rt; false);
        return;
    };
    let pages = [
        0x81, 0xc1, 0x44, 0x17, 0x08, 0x11, 0xc2, 0x3e, 0xb3, 0xe2, 0x76, 0xb8, 0x2e, 0x63, 0x7c,
        0x38, 0x25, 0xc0, 0x4a, 0x35, 0x2c, 0x42, 0xb3, 0xc7, 0x85, 0x9e, 0x77, 0x24, 0x12, 0x65,
        0x37, 0xe0,
    ];
    let want = [
        0xa0, 0xd3, 0x14, 0xbe, 0x79, 0x46, 0x11, 0xa1, 0x7d, 0xe4, 0x2c, 0xf2, 0x22, 0xf7, 0xa4,
        0xf0, 0x90, 0x0c, 0xed, 0x41, 0x12, 0x12, 0xe0, 0x9e, 0x77, 0xee, 0xf9, 0x5c, 0xa8, 0x60,
        0x21, 0x14,
    ];
    assert!(&rt; state_root(&machine, &Digest(pages)) == Digest(want));
    let Some(rung) = of_version(bytes, 2, &[0x80, 0, 0, 0x14, 0x80, 0, 0, 0x10, 2]) else {
        assert!(&rt; false);
        return;
    };
    let Some(machine) = machine_from(rt.alloc(), rung.as_slice()) else {
        assert!(&rt; false);
        return;
    };
    let want = [
        0xd9, 0x64, 0x7d, 0x31, 0x2e, 0xd5, 0xd4, 0x48, 0x2b, 0x98, 0xe4, 0x70, 0xbc, 0x1b, 0x32,
        0xf6, 0xac, 0x28, 0xa0, 0x25, 0x5e, 0x85, 0x64, 0x35, 0x05, 0xda, 0xfe, 0x7f, 0x09, 0x0a,
        0x50, 0xb2,
    ];
    assert!(&rt; state_root(&machine, &Digest(pages)) == Digest(want));
}
