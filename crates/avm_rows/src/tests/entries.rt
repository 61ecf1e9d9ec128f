//! Small segments: the first of each guest as the guest makes it, the others with one thing changed. The lines are those of
//! the definitions, read by hand, and of an independent program.

use super::building::{Entry, alone};
use super::running::audits_as;
use std::alloc::Global;

pub const BOOT: u8 = 1;

pub const SNAP: u8 = 2;

pub const CONIN: u8 = 3;

pub const CLOCK: u8 = 4;

pub const OUT: u8 = 7;

pub const SEND: u8 = 8;

pub const HALT: u8 = 9;

/// A halt by ECALL with 0.
pub const CALL: &[u8] = &[0, 0, 0, 1, 0, 0, 0, 0];

pub const SEVEN: &[u8] = &[0, 0, 0, 0, 0, 0, 0, 7];

/// The longest console input.
const FULL: &[u8] = &[120; 256];

/// The root of the state in which the guest that counts halts, by an independent program.
pub const ROOT: [u8; 32] = [
    0xd3, 0x71, 0xe5, 0xef, 0x6b, 0x9b, 0x6e, 0xe4, 0x8f, 0x96, 0xcf, 0x61, 0x89, 0x75, 0x4b, 0x5a,
    0x62, 0xe6, 0xb7, 0xea, 0xaf, 0x5c, 0x90, 0x2e, 0x66, 0xe8, 0xe3, 0x59, 0x42, 0x89, 0xe5, 0x64,
];

/// That root with one bit changed.
const WRONG: [u8; 32] = [
    0xd2, 0x71, 0xe5, 0xef, 0x6b, 0x9b, 0x6e, 0xe4, 0x8f, 0x96, 0xcf, 0x61, 0x89, 0x75, 0x4b, 0x5a,
    0x62, 0xe6, 0xb7, 0xea, 0xaf, 0x5c, 0x90, 0x2e, 0x66, 0xe8, 0xe3, 0x59, 0x42, 0x89, 0xe5, 0x64,
];

/// The entries behind BOOT, the line and the status.
type Row<'a> = (&'a [Entry<'a>], &'a str, u8);

/// The place of the first row whose audit ends otherwise, or their number.
fn passed(alloc: Global, words: &[u32], rows: &[Row<'_>]) -> usize {
    for (i, (entries, line, status)) in rows.iter().enumerate() {
        match alone(alloc, words, entries) {
            Some(segment) => {
                if !audits_as(alloc, &segment, line, *status) {
                    return i;
                }
            }
            None => return i,
        }
    }
    rows.len()
}

#[test]
fn prints(rt: HostRuntime) {
    let rows: [Row<'_>; 17] = [
        (
            &[(OUT, 5, b"H\n"), (HALT, 6, CALL)],
            "accepted 1 to 3 covered 0\n",
            0,
        ),
        (&[(OUT, 5, b"H\n")], "accepted 1 to 2 covered 0\n", 0),
        (&[], "accepted 1 to 1 covered 0\n", 0),
        (
            &[(OUT, 4, b"H\n"), (HALT, 6, CALL)],
            "refused uncovered 2\n",
            2,
        ),
        (
            &[(OUT, 6, b"H\n"), (HALT, 6, CALL)],
            "refused uncovered 2\n",
            2,
        ),
        (
            &[(OUT, 5, b"H\n"), (HALT, 5, CALL)],
            "refused uncovered 3\n",
            2,
        ),
        (
            &[(OUT, 5, b"H\n"), (HALT, 7, CALL)],
            "refused uncovered 3\n",
            2,
        ),
        (&[(HALT, 6, CALL)], "refused uncovered 2\n", 2),
        (
            &[(OUT, 5, b"H\n"), (OUT, 5, b"H\n"), (HALT, 6, CALL)],
            "refused uncovered 3\n",
            2,
        ),
        (
            &[(OUT, 5, b"H\n"), (HALT, 6, CALL), (HALT, 6, CALL)],
            "refused uncovered 4\n",
            2,
        ),
        (
            &[(HALT, 6, CALL), (OUT, 5, b"H\n")],
            "refused uncovered 2\n",
            2,
        ),
        (
            &[(OUT, 5, b"H"), (HALT, 6, CALL)],
            "refused uncovered 2\n",
            2,
        ),
        (
            &[(OUT, 5, b"I\n"), (HALT, 6, CALL)],
            "refused uncovered 2\n",
            2,
        ),
        (
            &[(OUT, 5, b"H\n\n"), (HALT, 6, CALL)],
            "refused uncovered 2\n",
            2,
        ),
        (
            &[(OUT, 5, b"H\n"), (HALT, 6, &[0, 0, 0, 2, 0, 0, 0, 0])],
            "refused uncovered 3\n",
            2,
        ),
        (
            &[(OUT, 5, b"H\n"), (HALT, 6, &[0, 0, 0, 1, 0, 0, 0, 1])],
            "refused uncovered 3\n",
            2,
        ),
        (
            &[
                (SEND, 5, &[0, 0, 0, 1, 0, 0, 0, 0, 0, 0, 0, 1, 72, 10]),
                (HALT, 6, CALL),
            ],
            "refused uncovered 2\n",
            2,
        ),
    ];
    assert_eq!(rt; passed(rt.alloc(), test_guests::PRINTS, &rows), rows.len());
}

#[test]
fn prints_with_inputs(rt: HostRuntime) {
    let rows: [Row<'_>; 11] = [
        (
            &[(CONIN, 0, b"a"), (OUT, 5, b"H\n"), (HALT, 6, CALL)],
            "accepted 1 to 4 covered 0\n",
            0,
        ),
        (
            &[(CONIN, 4, b"a"), (OUT, 5, b"H\n"), (HALT, 6, CALL)],
            "accepted 1 to 4 covered 0\n",
            0,
        ),
        (
            &[(CONIN, 5, b"a"), (OUT, 5, b"H\n"), (HALT, 6, CALL)],
            "refused uncovered 2\n",
            2,
        ),
        (
            &[(OUT, 5, b"H\n"), (CONIN, 5, b"a"), (HALT, 6, CALL)],
            "accepted 1 to 4 covered 0\n",
            0,
        ),
        (
            &[(OUT, 5, b"H\n"), (CONIN, 4, b"a"), (HALT, 6, CALL)],
            "refused uncovered 3\n",
            2,
        ),
        (
            &[(OUT, 5, b"H\n"), (CONIN, 6, b"a"), (HALT, 6, CALL)],
            "refused uncovered 3\n",
            2,
        ),
        (
            &[(OUT, 5, b"H\n"), (HALT, 6, CALL), (CONIN, 6, b"a")],
            "refused uncovered 4\n",
            2,
        ),
        (
            &[(OUT, 5, b"H\n"), (HALT, 6, CALL), (CLOCK, 6, SEVEN)],
            "refused uncovered 4\n",
            2,
        ),
        (
            &[(OUT, 5, b"H\n"), (CONIN, 7, b"a")],
            "refused uncovered 3\n",
            2,
        ),
        (
            &[(CLOCK, 0, SEVEN), (OUT, 5, b"H\n"), (HALT, 6, CALL)],
            "refused uncovered 2\n",
            2,
        ),
        (
            &[(OUT, 5, b"H\n"), (HALT, 6, CALL), (SNAP, 6, &ROOT)],
            "refused uncovered 4\n",
            2,
        ),
    ];
    assert_eq!(rt; passed(rt.alloc(), test_guests::PRINTS, &rows), rows.len());
}

#[test]
fn counts(rt: HostRuntime) {
    let rows: [Row<'_>; 14] = [
        (
            &[(OUT, 1024, b"H"), (HALT, 1024, CALL), (SNAP, 1024, &ROOT)],
            "accepted 1 to 4 covered 0\n",
            0,
        ),
        (
            &[(OUT, 1024, b"H"), (HALT, 1024, CALL)],
            "accepted 1 to 3 covered 0\n",
            0,
        ),
        (&[(OUT, 1024, b"H")], "accepted 1 to 2 covered 0\n", 0),
        (
            &[(OUT, 1024, b"H"), (HALT, 1024, CALL), (SNAP, 1024, &WRONG)],
            "refused uncovered 4\n",
            2,
        ),
        (
            &[(OUT, 1024, b"H"), (SNAP, 1024, &ROOT), (HALT, 1024, CALL)],
            "refused uncovered 3\n",
            2,
        ),
        (
            &[(HALT, 1024, CALL), (OUT, 1024, b"H"), (SNAP, 1024, &ROOT)],
            "refused uncovered 2\n",
            2,
        ),
        (
            &[(OUT, 1024, b"H"), (SNAP, 1024, &ROOT)],
            "refused uncovered 3\n",
            2,
        ),
        (
            &[(OUT, 1024, b"H"), (HALT, 1024, CALL), (SNAP, 1023, &ROOT)],
            "refused uncovered 4\n",
            2,
        ),
        (
            &[
                (OUT, 1024, b"H"),
                (HALT, 1024, CALL),
                (CONIN, 1024, b"a"),
                (SNAP, 1024, &ROOT),
            ],
            "refused uncovered 4\n",
            2,
        ),
        (
            &[
                (OUT, 1024, b"H"),
                (HALT, 1024, CALL),
                (SNAP, 1024, &ROOT),
                (SNAP, 1024, &ROOT),
            ],
            "refused uncovered 5\n",
            2,
        ),
        (
            &[(CONIN, 1023, b"a"), (OUT, 1024, b"H"), (HALT, 1024, CALL)],
            "accepted 1 to 4 covered 0\n",
            0,
        ),
        (
            &[
                (CONIN, 1023, b"a"),
                (OUT, 1024, b"H"),
                (HALT, 1024, CALL),
                (SNAP, 1024, &ROOT),
            ],
            "refused uncovered 5\n",
            2,
        ),
        (
            &[(CONIN, 1024, b"a"), (OUT, 1024, b"H")],
            "refused uncovered 2\n",
            2,
        ),
        (
            &[(OUT, 1023, b"H"), (HALT, 1024, CALL)],
            "refused uncovered 2\n",
            2,
        ),
    ];
    assert_eq!(rt; passed(rt.alloc(), test_guests::COUNTS, &rows), rows.len());
}

#[test]
fn asks(rt: HostRuntime) {
    let rows: [Row<'_>; 12] = [
        (
            &[(CLOCK, 1, SEVEN), (HALT, 3, CALL)],
            "accepted 1 to 3 covered 0\n",
            0,
        ),
        (
            &[(CLOCK, 1, SEVEN), (CLOCK, 1, SEVEN), (HALT, 3, CALL)],
            "refused uncovered 3\n",
            2,
        ),
        (&[(HALT, 3, CALL)], "refused uncovered 2\n", 2),
        (
            &[(CLOCK, 0, SEVEN), (HALT, 3, CALL)],
            "refused uncovered 2\n",
            2,
        ),
        (
            &[(CLOCK, 2, SEVEN), (HALT, 3, CALL)],
            "refused uncovered 2\n",
            2,
        ),
        (
            &[
                (CLOCK, 1, &[255, 255, 255, 255, 255, 255, 255, 255]),
                (HALT, 3, CALL),
            ],
            "accepted 1 to 3 covered 0\n",
            0,
        ),
        (
            &[(CONIN, 1, b"a"), (CLOCK, 1, SEVEN), (HALT, 3, CALL)],
            "accepted 1 to 4 covered 0\n",
            0,
        ),
        (
            &[(CLOCK, 1, SEVEN), (CONIN, 1, b"a"), (HALT, 3, CALL)],
            "refused uncovered 3\n",
            2,
        ),
        (
            &[(CLOCK, 1, SEVEN), (CONIN, 2, b"a"), (HALT, 3, CALL)],
            "accepted 1 to 4 covered 0\n",
            0,
        ),
        (
            &[(CLOCK, 1, SEVEN), (HALT, 3, CALL), (CLOCK, 3, SEVEN)],
            "refused uncovered 4\n",
            2,
        ),
        (
            &[(CLOCK, 1, SEVEN), (HALT, 2, CALL)],
            "refused uncovered 3\n",
            2,
        ),
        (
            &[(CLOCK, 1, SEVEN), (HALT, 4, CALL)],
            "refused uncovered 3\n",
            2,
        ),
    ];
    assert_eq!(rt; passed(rt.alloc(), test_guests::ASKS, &rows), rows.len());
}

#[test]
fn reads(rt: HostRuntime) {
    let rows: [Row<'_>; 9] = [
        (&[(HALT, 3, CALL)], "accepted 1 to 2 covered 0\n", 0),
        (&[(CLOCK, 1, SEVEN)], "refused uncovered 2\n", 2),
        (
            &[(CONIN, 0, b"a"), (HALT, 3, CALL)],
            "accepted 1 to 3 covered 0\n",
            0,
        ),
        (
            &[(CONIN, 2, b"a"), (HALT, 3, CALL)],
            "accepted 1 to 3 covered 0\n",
            0,
        ),
        (
            &[(CONIN, 3, b"a"), (HALT, 3, CALL)],
            "refused uncovered 2\n",
            2,
        ),
        (
            &[(CONIN, 2, b"a"), (CONIN, 1, b"a"), (HALT, 3, CALL)],
            "refused uncovered 3\n",
            2,
        ),
        (
            &[
                (CONIN, 0, FULL),
                (CONIN, 0, FULL),
                (CONIN, 0, FULL),
                (CONIN, 0, FULL),
                (HALT, 3, CALL),
            ],
            "accepted 1 to 6 covered 0\n",
            0,
        ),
        (
            &[
                (CONIN, 0, FULL),
                (CONIN, 0, FULL),
                (CONIN, 0, FULL),
                (CONIN, 0, FULL),
                (CONIN, 0, b"a"),
                (HALT, 3, CALL),
            ],
            "refused uncovered 6\n",
            2,
        ),
        (
            &[
                (CONIN, 0, FULL),
                (CONIN, 0, FULL),
                (CONIN, 0, FULL),
                (CONIN, 0, FULL),
                (CONIN, 2, b"a"),
                (HALT, 3, CALL),
            ],
            "accepted 1 to 7 covered 0\n",
            0,
        ),
    ];
    assert_eq!(rt; passed(rt.alloc(), test_guests::READS, &rows), rows.len());
}

#[test]
fn spins(rt: HostRuntime) {
    let rows: [Row<'_>; 6] = [
        (
            &[(CONIN, 5, b"a"), (CONIN, 9, b"a")],
            "accepted 1 to 3 covered 0\n",
            0,
        ),
        (
            &[(CONIN, 5, b"a"), (CONIN, 4, b"a")],
            "refused uncovered 3\n",
            2,
        ),
        (&[(CONIN, 1023, b"a")], "accepted 1 to 2 covered 0\n", 0),
        (&[(CONIN, 1024, b"a")], "refused uncovered 2\n", 2),
        (&[(HALT, 5, CALL)], "refused uncovered 2\n", 2),
        // The last count of all: a snapshot comes 1024 steps on, and no step more is made.
        (&[(OUT, (1 << 62) - 1, b"A")], "refused uncovered 2\n", 2),
    ];
    assert_eq!(rt; passed(rt.alloc(), test_guests::SPINS, &rows), rows.len());
}
