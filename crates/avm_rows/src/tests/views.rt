//! Views by the program's words: the state at a count with words of RAM, the changes of a word, and what is refused.

use super::building::{Entry, alone};
use super::entries::{CALL, HALT, OUT};
use super::running::run;
use std::alloc::Global;
use test_guests::PRINTS;

/// Stores 7 into the word behind it, twice, and halts.
const TWICE: [u32; 5] = [
    0x0000_0297,
    0x0070_0313,
    0x0062_aa23,
    0x0062_aa23,
    0x0000_0073,
];

/// Whether a run of these words over a segment prints this and ends with this status.
fn shows(alloc: Global, segment: &[u8], texts: &[&str], printed: &str, status: u8) -> Option<bool> {
    let ran = run(alloc, texts, &[("s", segment)])?;
    Some(ran.ended(printed, status))
}

#[test]
fn a_state_is_printed(rt: HostRuntime) {
    let entries: [Entry<'_>; 2] = [(OUT, 5, b"H\n"), (HALT, 6, CALL)];
    let segment = alone(rt.alloc(), PRINTS, &entries).expect(&rt, "memory");
    let rows: [(&[&str], &str, u8); 4] = [
        (
            &[
                "view",
                "--segment",
                "s",
                "--count",
                "2",
                "--from",
                "80000000",
                "--words",
                "2",
            ],
            "count 2 pc 80000008 running\nx5 10000000\nx6 00000048\n80000000 100002b7\n80000004 04800313\n",
            0,
        ),
        (
            &["view", "--segment", "s", "--count", "7"],
            "refused range\n",
            2,
        ),
        (&["view", "--segment", "s", "--changes", "80000000"], "", 0),
        (
            &["view", "--segment", "s", "--count", "2", "--words", "2"],
            "refused words\n",
            3,
        ),
    ];
    for (texts, printed, status) in rows {
        let shown = shows(rt.alloc(), &segment, texts, printed, status);
        assert!(rt; shown == Some(true), "{printed}");
    }
}

#[test]
fn changes_are_printed(rt: HostRuntime) {
    let segment = alone(rt.alloc(), &TWICE, &[(HALT, 5, CALL)]).expect(&rt, "memory");
    let rows: [(&str, &str, u8); 2] = [
        ("80000014", "3 00000000 00000007\n", 0),
        ("80000015", "refused range\n", 2),
    ];
    for (address, printed, status) in rows {
        let shown = shows(
            rt.alloc(),
            &segment,
            &["view", "--segment", "s", "--changes", address],
            printed,
            status,
        );
        assert!(rt; shown == Some(true), "{printed}");
    }
}

#[test]
fn a_segment_that_is_not_there(rt: HostRuntime) {
    let texts = ["view", "--segment", "s", "--count", "2"];
    let ran = run(rt.alloc(), &texts, &[]).expect(&rt, "memory");
    assert!(rt; ran.ended("refused file --segment\n", 3));
}
