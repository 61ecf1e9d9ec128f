//! Each call of a recording on its files, its disk and its sink fails once.

use super::messages::{ANSWERED, ON, answered, one_message};
use super::running::{Fails, NONE, Ran, bytes_of, disk_of, is_front, lines_of, record_on};
use super::stores::{KEY, echo, messages};
use std::alloc::Global;

/// A run with one failing call, the lines of its store behind it, and whether the store has changed.
#[derive(Drop)]
struct Failed {
    ran: Ran,
    lines: Vec<u8>,
    changed: bool,
}

fn run_failing(
    alloc: Global,
    store: &[u8],
    script: &[u8],
    disk_fail: u64,
    fails: Fails,
) -> Option<Failed> {
    let mut disk = disk_of(alloc, store, disk_fail)?;
    let ran = record_on(alloc, KEY, script, &mut disk, fails)?;
    let bytes = bytes_of(alloc, &mut disk)?;
    let changed = bytes.as_slice() != store;
    let listed = lines_of(alloc, &mut disk_of(alloc, &bytes, 0)?)?;
    let lines = Vec::from_slice(alloc, listed.bytes()).ok()?;
    Some(Failed {
        ran,
        lines,
        changed,
    })
}

/// How many calls read the files: the key in one piece, the script in five of 4096 bytes, and the end of each. Behind them stand three appends.
const READS: u64 = 8;

/// Whether a run released fronts of what a whole run releases.
fn released_fronts(ran: &Ran, whole: &Ran) -> bool {
    ["p", "c", "a"]
        .iter()
        .all(|name| is_front(ran.file(name), whole.file(name)))
}

/// How many runs with a failing call came before one without; each ended with this line, released fronts, and left a front of the lines.
fn failing_calls(alloc: Global, of_disk: bool, line: &str) -> Option<u64> {
    let store = echo(alloc)?;
    let whole = answered(alloc, &store)?;
    let script = one_message(alloc)?;
    let lines = run_failing(alloc, &store, &script, 0, NONE)?.lines;
    for number in 1..1000u64 {
        let (disk, files) = if of_disk { (number, 0) } else { (0, number) };
        let failed = run_failing(alloc, &store, &script, disk, Fails { files, print: 0 })?;
        if failed.ran.ended(ANSWERED, 0) {
            return Some(number - 1);
        }
        if !failed.ran.ended(line, 4)
            || !released_fronts(&failed.ran, &whole)
            || !is_front(&failed.lines, &lines)
        {
            return None;
        }
    }
    None
}

#[test]
fn each_call_of_the_disk_fails_in_turn(rt: HostRuntime) {
    let calls = failing_calls(rt.alloc(), true, "fault disk\n");
    // the store is read, and three records are written with four calls each
    assert!(rt; calls.is_some_and(|calls| calls > 12));
}

#[test]
fn each_call_of_the_files_fails_in_turn(rt: HostRuntime) {
    assert_eq!(rt;
        failing_calls(rt.alloc(), false, "fault files\n"),
        Some(READS + 3)
    );
}

/// Nothing is recorded where the files can't be read.
fn unread_files(alloc: Global) -> Option<bool> {
    let store = echo(alloc)?;
    let script = one_message(alloc)?;
    for files in 1..=READS {
        if run_failing(alloc, &store, &script, 0, Fails { files, print: 0 })?.changed {
            return Some(false);
        }
    }
    Some(true)
}

#[test]
fn nothing_is_recorded_of_files_that_are_not_read(rt: HostRuntime) {
    assert_eq!(rt; unread_files(rt.alloc()), Some(true));
}

/// The last append fails, which is that of the authenticator: the next run releases it whole.
fn an_authenticator_that_fails(alloc: Global) -> Option<bool> {
    let store = echo(alloc)?;
    let whole = answered(alloc, &store)?;
    let mut disk = disk_of(alloc, &store, 0)?;
    let fails = Fails {
        files: READS + 3,
        print: 0,
    };
    let torn = record_on(alloc, KEY, &one_message(alloc)?, &mut disk, fails)?;
    let again = record_on(alloc, KEY, ON, &mut disk, NONE)?;
    Some(
        torn.ended("fault files\n", 4)
            && torn.file("p") == whole.file("p")
            && torn.file("a").len() < whole.file("a").len()
            && is_front(torn.file("a"), whole.file("a"))
            && again.ended(ANSWERED, 0)
            && again.file("a") == whole.file("a")
            && again.file("p").is_empty(),
    )
}

#[test]
fn an_authenticator_is_released_again(rt: HostRuntime) {
    assert_eq!(rt; an_authenticator_that_fails(rt.alloc()), Some(true));
}

/// The number of a print that fails, what was printed before it, and the end of the store's lines.
const PRINTS: [(u64, &str, &[u8]); 3] = [
    (1, "", b"\n2 RECV 0 1 1\n"),
    (2, "dropped repeated 0\n", b"\n2 RECV 0 1 1\n"),
    (
        3,
        "dropped repeated 0\ndropped wrongnumber 0\n",
        b"\n2 RECV 0 1 1\nseal 2\n",
    ),
];

/// No event is taken and nothing is sealed behind a line that isn't printed.
fn each_print(alloc: Global) -> Option<bool> {
    let store = echo(alloc)?;
    let script = messages(alloc, &[1, 1, 3], "end 0\n")?;
    for (print, out, end) in PRINTS {
        let failed = run_failing(alloc, &store, &script, 0, Fails { files: 0, print })?;
        if !failed.ran.ended(out, 4) || !failed.lines.ends_with(end) {
            return Some(false);
        }
    }
    Some(true)
}

#[test]
fn each_print_fails_in_turn(rt: HostRuntime) {
    assert_eq!(rt; each_print(rt.alloc()), Some(true));
}
