//! A crash at each call of a run that answers a message.

use crate::tests::running::{Script, run, standing};
use crate::tests::stores::{Guest, message, store};
use crate::tests::untold::Untold;
use std::alloc::Global;

/// The last entry and the used leaves behind each of the three commits: the message, the answer, the seal.
const SAVED: [(u64, u64); 4] = [(1, 0), (2, 1), (4, 2), (4, 3)];

/// How many calls a commit makes: the last is the sync that saves it, and the one before opens its gate.
const CALLS: usize = 4;

/// What the journal has after so many calls of the run, with this byte in each free place.
fn saved(calls: usize, fill: u8) -> (u64, u64) {
    let opened = calls % CALLS == CALLS - 1 && fill == 1;
    SAVED[(calls / CALLS + usize::from(opened)).min(3)]
}

/// Whether a store opened on an image has this last entry and so many used leaves, and the same run leaves of it what it leaves
/// without a crash.
fn goes_on(alloc: Global, mut image: Untold, script: Script<'_>, at: (u64, u64)) -> Option<bool> {
    let found = standing(alloc, &mut image)?;
    let ran = run(alloc, &mut image, script)?;
    Some(found == at && (ran.last, ran.bound) == (4, 3))
}

/// Whether each image of a crash behind so many calls of a run goes on as it should.
fn images_go_on(
    alloc: Global,
    disk: &Untold,
    before: usize,
    calls: usize,
    script: Script<'_>,
) -> Option<bool> {
    for (fill, long) in [
        (0x00, false),
        (0x00, true),
        (0x01, false),
        (0x01, true),
        (0xff, false),
        (0xff, true),
    ] {
        let image = disk
            .crashed(alloc, before.saturating_add(calls), long, fill)
            .ok()?;
        if !goes_on(alloc, image, script, saved(calls, fill))? {
            return Some(false);
        }
    }
    Some(true)
}

fn a_run_at_each_call(alloc: Global) -> Option<bool> {
    let first = message(alloc, 1)?;
    let packets: [&[u8]; 1] = [&first];
    let script = Script::new(&[], &packets, 60000);
    let mut disk = store(alloc, Guest::Echo)?;
    let ran = run(alloc, &mut disk, script)?;
    for calls in 0..=3 * CALLS {
        if !images_go_on(alloc, &disk, ran.before, calls, script)? {
            return Some(false);
        }
    }
    Some(disk.disk.calls() == ran.before.saturating_add(3 * CALLS))
}

#[test]
fn what_was_released_is_there_behind_each_crash(rt: HostRuntime) {
    assert_eq!(rt; a_run_at_each_call(rt.alloc()), Some(true));
}
