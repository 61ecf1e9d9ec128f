//! Segments whole, cut and changed, a segment from a snapshot, and words that are no job.

use super::building::{Origin, alone, content, front, origin_of, push_entry};
use super::entries::{CALL, HALT, OUT, ROOT, SNAP};
use super::running::{audits_as, cut, run};
use avm_hash::Digest;
use std::alloc::Global;
use test_guests::{COUNTS, PRINTS};

/// The hash of entry 3 of the log of the guest that counts, by an independent program.
const BEFORE: Digest = Digest([
    0xca, 0xf3, 0x14, 0x57, 0xda, 0x34, 0x67, 0xb7, 0x62, 0xc6, 0x14, 0x29, 0x83, 0xfe, 0x14, 0x5e,
    0xf8, 0x26, 0x56, 0x4f, 0xa5, 0x7c, 0x68, 0xfc, 0x23, 0x7a, 0x70, 0x25, 0x41, 0xce, 0xc4, 0xcd,
]);

/// What in the head differs from the first head when the guest that counts has halted: x5, x6, pc, count and status.
const HALTED: [(usize, u8); 6] = [
    (27, 0x10),
    (34, 0x48),
    (138, 0x1c),
    (145, 0x04),
    (146, 0x00),
    (147, 0x02),
];

/// Its segment from SNAP at count 1024 on, with one byte of the segment raised by so much.
pub fn from_snapshot(alloc: Global, at: usize, by: u8) -> Option<Vec<u8>> {
    let mut origin = origin_of(alloc, COUNTS, 1024, Vec::new(alloc))?;
    for (place, value) in HALTED {
        if let Some(byte) = origin.head.get_mut(place) {
            *byte = value;
        }
    }
    let mut out = front(alloc, 4, &BEFORE, &origin.head, &origin.pages)?;
    push_entry(alloc, &mut out, 4, (SNAP, 1024, &ROOT))?;
    if let Some(byte) = out.get_mut(at) {
        *byte = byte.wrapping_add(by);
    }
    Some(out)
}

#[test]
fn a_segment_from_a_snapshot(rt: HostRuntime) {
    // the place of a byte that is raised, and by how much
    let rows: [(usize, u8, &str, u8); 6] = [
        (0, 0, "accepted 4 to 4 covered 0\n", 0),
        (5, 1, "refused malformed\n", 2),
        (13, 1, "accepted 4 to 4 covered 0\n", 0),
        (80, 1, "refused uncommitted\n", 2),
        (5336, 1, "refused uncommitted\n", 2),
        (5357, 1, "refused uncommitted\n", 2),
    ];
    for (at, by, line, status) in rows {
        let segment = from_snapshot(rt.alloc(), at, by).expect(&rt, "memory");
        assert!(rt;
            audits_as(rt.alloc(), &segment, line, status),
            "{line} at {at}"
        );
    }
}

#[test]
fn a_segment_is_whole(rt: HostRuntime) {
    let entries = [(OUT, 5, b"H\n".as_slice()), (HALT, 6, CALL)];
    let mut segment = alone(rt.alloc(), PRINTS, &entries).expect(&rt, "memory");
    assert_eq!(rt; segment.len(), 5442);
    assert!(rt; audits_as(rt.alloc(), &segment, "accepted 1 to 3 covered 0\n", 0));
    assert!(rt; audits_as(rt.alloc(), cut(&segment, 5441), "refused malformed\n", 2));
    assert!(rt; audits_as(rt.alloc(), b"", "refused malformed\n", 2));
    segment.push(0).expect(&rt, "memory");
    assert!(rt; audits_as(rt.alloc(), &segment, "refused malformed\n", 2));
}

#[test]
fn words_and_names(rt: HostRuntime) {
    let rows: [(&[&str], &str, u8); 6] = [
        (&["audit"], "refused words\n", 3),
        (
            &["audit", "--segment", "a", "--segment", "b"],
            "refused words\n",
            3,
        ),
        (
            &["audit", "--segment", "a", "--key", "k"],
            "refused words\n",
            3,
        ),
        (&["replay"], "refused words\n", 3),
        (&["sample", "--seed", "7"], "refused notbuilt\n", 2),
        (&["audit", "--segment", "a"], "refused file --segment\n", 3),
    ];
    for (texts, line, status) in rows {
        let ran = run(rt.alloc(), texts, &[]).expect(&rt, "memory");
        assert!(rt; ran.ended(line, status), "{line}");
    }
}
