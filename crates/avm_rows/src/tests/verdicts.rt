//! Each verdict on logs with authenticators, also where two of them apply. The lines are an independent program's.

use super::building::{Entry, booted, origin_of};
use super::entries::{CALL, HALT, OUT};
use super::keys::{authenticator, quick_key};
use super::signed::{Case, audit, checks_as};
use Log::{Early, Good, Uncommitted};
use avm_hash::Digest;
use lms_tree::LmsKey;
use log_chain::next;
use log_entry::Frames;
use seg_file::read_segment;
use std::alloc::Global;
use test_guests::PRINTS;

/// As the guest makes it; with the line one step early; with another root in BOOT.
#[derive(Clone, Copy)]
enum Log {
    Good,
    Early,
    Uncommitted,
}

/// The seeds of the auditor's key and of another.
const OWN: u8 = 0x11;

const OTHER: u8 = 0x12;

/// The number of an entry, the log whose hash there is signed (None: zeros), and the key's seed.
type Signed = (u64, Option<Log>, u8);

/// The log that is audited, its authenticators, the line and the status.
type Row<'a> = (Log, &'a [Signed], &'a str, u8);

fn segment(alloc: Global, log: Log) -> Option<Vec<u8>> {
    let mut origin = origin_of(alloc, PRINTS, 1024, Vec::new(alloc))?;
    let (root, count) = match log {
        Good => (origin.root, 5),
        Early => (origin.root, 4),
        Uncommitted => (Digest([0; 32]), 5),
    };
    origin.root = root;
    let entries: [Entry<'_>; 2] = [(OUT, count, b"H\n"), (HALT, 6, CALL)];
    booted(alloc, &origin, &entries)
}

/// The hash of an entry of a segment.
fn hash_at(segment: &[u8], seq: u64) -> Option<Digest> {
    let segment = read_segment(segment)?;
    let mut top = segment.before;
    for frame in Frames::new(segment.frames) {
        top = next(&top, frame.seq, frame.kind, frame.content);
        if frame.seq == seq {
            return Some(top);
        }
    }
    None
}

/// The authenticators of these entries, each at a leaf of its own.
fn authenticators(alloc: Global, keys: &[LmsKey; 2], signed: &[Signed]) -> Option<Vec<u8>> {
    let mut out = Vec::new(alloc);
    let mut leaf = 0u32;
    for &(seq, log, seed) in signed {
        let hash = match log {
            Some(log) => hash_at(&segment(alloc, log)?, seq)?,
            None => Digest([0; 32]),
        };
        let key = if seed == OWN { &keys[0] } else { &keys[1] };
        out.extend_from_slice(&authenticator(alloc, key, leaf, seq, &hash)?)
            .ok()?;
        leaf = leaf.wrapping_add(1);
    }
    Some(out)
}

/// Whether the audit ends so, and leaves evidence that stands exactly where it ends with 1.
fn ends_as(alloc: Global, case: &Case, line: &str, status: u8) -> Option<bool> {
    let ran = audit(alloc, case, 0, 0)?;
    let left = match ran.files.bytes("e") {
        Some(evidence) => {
            status == 1 && checks_as(alloc, &case.public, evidence, "evidence stands\n", 0)
        }
        None => status != 1,
    };
    Some(ran.ended(line, status) && left)
}

/// The place of the first row that ends otherwise, or their number.
fn passed(alloc: Global, rows: &[Row<'_>]) -> Option<usize> {
    let keys = [quick_key(alloc, OWN)?, quick_key(alloc, OTHER)?];
    for (i, (log, signed, line, status)) in rows.iter().enumerate() {
        let case = Case {
            segment: segment(alloc, *log)?,
            auths: authenticators(alloc, &keys, signed)?,
            public: keys[0].public(),
        };
        if !ends_as(alloc, &case, line, *status)? {
            return Some(i);
        }
    }
    Some(rows.len())
}

#[test]
fn of_the_log_as_it_is_made(rt: HostRuntime) {
    let rows: [Row<'_>; 13] = [
        (Good, &[], "accepted 1 to 3 covered 0\n", 0),
        (
            Good,
            &[
                (1, Some(Good), OWN),
                (2, Some(Good), OWN),
                (3, Some(Good), OWN),
            ],
            "accepted 1 to 3 covered 3\n",
            0,
        ),
        (
            Good,
            &[(2, Some(Good), OWN), (1, Some(Good), OWN)],
            "accepted 1 to 3 covered 2\n",
            0,
        ),
        (
            Good,
            &[(3, Some(Good), OWN), (3, Some(Good), OWN)],
            "accepted 1 to 3 covered 3\n",
            0,
        ),
        (
            Good,
            &[(1, Some(Good), OWN), (9, None, OWN)],
            "refused unmatched 1\n",
            2,
        ),
        (
            Good,
            &[(1, Some(Good), OWN), (3, Some(Good), OTHER)],
            "refused badauth 1\n",
            2,
        ),
        (
            Good,
            &[(3, Some(Good), OTHER), (2, None, OWN), (2, Some(Good), OWN)],
            "refused badauth 0\n",
            2,
        ),
        (
            Good,
            &[(2, Some(Good), OWN), (2, Some(Early), OWN)],
            "fault double 0 1\n",
            1,
        ),
        (
            Good,
            &[
                (9, None, OWN),
                (1, Some(Good), OWN),
                (2, Some(Early), OWN),
                (2, None, OWN),
                (2, Some(Good), OWN),
            ],
            "fault double 2 3\n",
            1,
        ),
        (
            Good,
            &[(3, Some(Good), OWN), (2, None, OWN)],
            "fault fork 1 0\n",
            1,
        ),
        (
            Good,
            &[(1, None, OWN), (2, None, OWN), (2, Some(Good), OWN)],
            "fault double 1 2\n",
            1,
        ),
        (
            Good,
            &[(2, Some(Good), OWN), (3, Some(Early), OWN)],
            "refused unmatched 1\n",
            2,
        ),
        (Good, &[(2, None, OWN)], "refused unmatched 0\n", 2),
    ];
    assert_eq!(rt; passed(rt.alloc(), &rows), Some(rows.len()));
}

#[test]
fn of_a_log_that_is_not(rt: HostRuntime) {
    let rows: [Row<'_>; 14] = [
        (Early, &[(3, Some(Early), OWN)], "fault replay 2\n", 1),
        (Early, &[(2, Some(Early), OWN)], "fault replay 2\n", 1),
        (Early, &[(1, Some(Early), OWN)], "refused uncovered 2\n", 2),
        (
            Early,
            &[(9, None, OWN), (3, Some(Early), OWN)],
            "fault replay 2\n",
            1,
        ),
        (
            Early,
            &[(3, Some(Early), OWN), (2, Some(Good), OWN)],
            "fault fork 1 0\n",
            1,
        ),
        (
            Early,
            &[(3, Some(Early), OWN), (3, Some(Good), OWN)],
            "fault double 0 1\n",
            1,
        ),
        (
            Early,
            &[(3, Some(Early), OWN), (2, Some(Good), OWN), (2, None, OWN)],
            "fault double 1 2\n",
            1,
        ),
        (
            Early,
            &[(1, Some(Early), OWN), (3, Some(Good), OWN)],
            "refused uncovered 2\n",
            2,
        ),
        (Early, &[(9, None, OWN)], "refused uncovered 2\n", 2),
        (
            Early,
            &[(2, Some(Early), OWN), (3, Some(Good), OWN)],
            "fault replay 2\n",
            1,
        ),
        (
            Uncommitted,
            &[(2, Some(Good), OWN), (2, Some(Early), OWN)],
            "fault double 0 1\n",
            1,
        ),
        (
            Uncommitted,
            &[(3, Some(Good), OWN)],
            "refused uncommitted\n",
            2,
        ),
        (
            Uncommitted,
            &[(3, Some(Good), OTHER)],
            "refused badauth 0\n",
            2,
        ),
        (Uncommitted, &[(9, None, OWN)], "refused uncommitted\n", 2),
    ];
    assert_eq!(rt; passed(rt.alloc(), &rows), Some(rows.len()));
}
