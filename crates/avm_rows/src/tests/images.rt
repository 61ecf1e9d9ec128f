//! Audits of a segment beside an image.

use super::building::{Entry, alone};
use super::entries::{CALL, HALT, OUT};
use super::rows::from_snapshot;
use super::running::{Ran, run};
use std::alloc::Global;
use test_guests::{COUNTS, PRINTS, SPINS};

/// The words of the guest that prints but for the last.
const ONE_SHORT: &[u32] = &[
    0x1000_02b7,
    0x0480_0313,
    0x0062_a023,
    0x00a0_0313,
    0x0062_a023,
];

/// A flat image of these words.
fn image(alloc: Global, words: &[u32]) -> Option<Vec<u8>> {
    let mut bytes = Vec::new(alloc);
    for word in words {
        bytes.extend_from_slice(&word.to_le_bytes()).ok()?;
    }
    Some(bytes)
}

/// An audit of a segment beside an image.
fn beside(alloc: Global, segment: &[u8], image: &[u8]) -> Option<Ran> {
    let texts = ["audit", "--segment", "s", "--image", "i"];
    run(alloc, &texts, &[("s", segment), ("i", image)])
}

/// Whether an audit beside the image of these words prints this line and ends with this status.
pub fn ends_beside(
    alloc: Global,
    segment: &[u8],
    words: &[u32],
    line: &str,
    status: u8,
) -> Option<bool> {
    let image = image(alloc, words)?;
    Some(beside(alloc, segment, &image)?.ended(line, status))
}

#[test]
fn a_segment_beside_an_image(rt: HostRuntime) {
    // the count of the line, the image's words, the line and the status
    let rows: [(u64, &[u32], &str, u8); 6] = [
        (5, PRINTS, "accepted 1 to 3 covered 0\n", 0),
        (5, SPINS, "refused image\n", 2),
        (5, ONE_SHORT, "refused image\n", 2),
        (5, &[], "refused file --image\n", 3),
        (4, PRINTS, "refused uncovered 2\n", 2),
        (4, SPINS, "refused uncovered 2\n", 2),
    ];
    for (count, words, line, status) in rows {
        let entries: [Entry<'_>; 2] = [(OUT, count, b"H\n"), (HALT, 6, CALL)];
        let segment = alone(rt.alloc(), PRINTS, &entries).expect(&rt, "memory");
        assert!(rt;
            ends_beside(rt.alloc(), &segment, words, line, status) == Some(true),
            "{line}"
        );
    }
}

#[test]
fn a_segment_from_a_snapshot_beside_its_image(rt: HostRuntime) {
    let segment = from_snapshot(rt.alloc(), 0, 0).expect(&rt, "memory");
    assert!(rt; ends_beside(rt.alloc(), &segment, COUNTS, "refused image\n", 2) == Some(true));
}

#[test]
fn an_image_that_is_not_there(rt: HostRuntime) {
    let segment = alone(rt.alloc(), PRINTS, &[]).expect(&rt, "memory");
    let texts = ["audit", "--segment", "s", "--image", "i"];
    let ran = run(rt.alloc(), &texts, &[("s", &segment)]).expect(&rt, "memory");
    assert!(rt; ran.ended("refused file --image\n", 3));
    // the segment's file is read last
    let ran = run(rt.alloc(), &texts, &[]).expect(&rt, "memory");
    assert!(rt; ran.ended("refused file --image\n", 3));
}
