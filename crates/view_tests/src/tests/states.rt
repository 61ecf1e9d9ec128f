//! States at counts of small segments. The lines are those of the definitions, read by hand, and of an independent program.

use super::building::{Entry, alone};
use super::running::{Asked, CALL, CONIN, HALT, OUT, ends_as, views_as};
use std::alloc::Global;
use test_guests::{PRINTS, READS};

/// Where the RAM begins, and its last word.
const RAM: u32 = 0x8000_0000;

const LAST: u32 = 0x8000_0ffc;

/// What is asked, what is printed, and the status.
type Row<'a> = (Asked, &'a str, u8);

/// The place of the first row that ends otherwise, or their number.
fn passed(alloc: Global, words: &[u32], entries: &[Entry<'_>], rows: &[Row<'_>]) -> usize {
    let Some(segment) = alone(alloc, words, entries) else {
        return rows.len().wrapping_add(1);
    };
    for (i, (asked, printed, status)) in rows.iter().enumerate() {
        if !views_as(alloc, &segment, *asked, printed, *status) {
            return i;
        }
    }
    rows.len()
}

#[test]
fn prints(rt: HostRuntime) {
    let rows: [Row<'_>; 11] = [
        (
            Asked::State(2, RAM, 2),
            "count 2 pc 80000008 running\nx5 10000000\nx6 00000048\n80000000 100002b7\n80000004 04800313\n",
            0,
        ),
        (Asked::State(0, 0, 0), "count 0 pc 80000000 running\n", 0),
        (
            Asked::State(6, 0, 0),
            "count 6 pc 80000014 halted\nx5 10000000\nx6 0000000a\n",
            0,
        ),
        (Asked::State(7, 0, 0), "refused range\n", 2),
        (Asked::State(7, RAM, 1), "refused range\n", 2),
        (
            Asked::State(5, LAST, 1),
            "count 5 pc 80000014 running\nx5 10000000\nx6 0000000a\n80000ffc 00000000\n",
            0,
        ),
        (Asked::State(5, LAST, 2), "refused range\n", 2),
        (Asked::State(5, RAM + 2, 1), "refused range\n", 2),
        (Asked::State(5, RAM - 4, 1), "refused range\n", 2),
        (Asked::State(5, RAM, 4096), "refused range\n", 2),
        (Asked::State(5, 0xffff_fffc, 4096), "refused range\n", 2),
    ];
    let entries = [(OUT, 5, b"H\n".as_slice()), (HALT, 6, CALL)];
    assert_eq!(rt; passed(rt.alloc(), PRINTS, &entries, &rows), rows.len());
}

#[test]
fn an_input_is_taken_behind_its_count(rt: HostRuntime) {
    let early: [Row<'_>; 3] = [
        (
            Asked::State(1, 0, 0),
            "count 1 pc 80000004 running\nx5 10000000\n",
            0,
        ),
        (
            Asked::State(2, 0, 0),
            "count 2 pc 80000008 running\nx5 10000000\nx17 00000061\n",
            0,
        ),
        (
            Asked::State(3, 0, 0),
            "count 3 pc 80000008 halted\nx5 10000000\nx17 00000061\n",
            0,
        ),
    ];
    let entries = [(CONIN, 1, b"a".as_slice()), (HALT, 3, CALL)];
    assert_eq!(rt; passed(rt.alloc(), READS, &entries, &early), early.len());
    let late: [Row<'_>; 1] = [(
        Asked::State(3, 0, 0),
        "count 3 pc 80000008 halted\nx5 10000000\nx17 ffffffff\n",
        0,
    )];
    let entries = [(CONIN, 2, b"a".as_slice()), (HALT, 3, CALL)];
    assert_eq!(rt; passed(rt.alloc(), READS, &entries, &late), late.len());
}

#[test]
fn refused(rt: HostRuntime) {
    let alloc = rt.alloc();
    let asked = Asked::State(0, 0, 0);
    let late = alone(alloc, PRINTS, &[(OUT, 4, b"H\n".as_slice())]).expect(&rt, "memory");
    assert!(rt; views_as(alloc, &late, asked, "refused uncovered 2\n", 2));
    let mut other = alone(alloc, PRINTS, &[]).expect(&rt, "memory");
    if let Some(byte) = other.get_mut(80) {
        *byte ^= 1;
    }
    assert!(rt; views_as(alloc, &other, asked, "refused uncommitted\n", 2));
    assert!(rt; views_as(alloc, b"", asked, "refused malformed\n", 2));
    assert!(rt; views_as(alloc, b"", Asked::State(9, 1, 1), "refused malformed\n", 2));
}

#[test]
fn faults(rt: HostRuntime) {
    let alloc = rt.alloc();
    let segment = alone(alloc, PRINTS, &[]).expect(&rt, "memory");
    let asked = Asked::State(0, RAM, 1);
    let all = "count 0 pc 80000000 running\n80000000 100002b7\n";
    assert_eq!(rt;
        ends_as(alloc, None, asked, (0, 0), "refused file --segment\n", 3),
        Some(true)
    );
    assert_eq!(rt;
        ends_as(alloc, Some(&segment), asked, (1, 0), "fault files\n", 4),
        Some(true)
    );
    assert_eq!(rt;
        ends_as(alloc, Some(&segment), asked, (2, 0), "fault files\n", 4),
        Some(true)
    );
    assert_eq!(rt;
        ends_as(alloc, Some(&segment), asked, (9, 9), all, 0),
        Some(true)
    );
    assert_eq!(rt;
        ends_as(alloc, Some(&segment), asked, (0, 1), "", 4),
        Some(true)
    );
    assert_eq!(rt;
        ends_as(
            alloc,
            Some(&segment),
            asked,
            (0, 2),
            "count 0 pc 80000000 running\n",
            4
        ),
        Some(true)
    );
}
