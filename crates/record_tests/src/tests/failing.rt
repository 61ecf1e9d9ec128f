//! Each call of a run on its disk, its outlet and its feed fails once.

use crate::tests::running::{Ran, Script, run};
use crate::tests::stores::{Guest, message, store};
use crate::tests::untold::Untold;
use recorder::{Sealed, Stop, Turn};
use std::alloc::Global;

/// Whether a run was stopped for this reason, and answers nothing else from then on.
fn is_stopped(ran: &Ran, why: Stop) -> bool {
    let stopped = match (ran.turn, ran.sealed) {
        (Turn::Stopped(stop), Sealed::Ended(again)) => stop == why && again == why,
        (Turn::End, Sealed::Stopped(stop)) => stop == why,
        _ => false,
    };
    stopped && ran.behind == Some((Turn::Ended(why), Sealed::Ended(why)))
}

/// Whether a run with one failing call is stopped for this reason, and the same run behind it leaves what it leaves without.
fn stops(alloc: Global, mut disk: Untold, failing: Script<'_>, why: Stop) -> Option<bool> {
    let ran = run(alloc, &mut disk, failing)?;
    let script = Script {
        outlet_fails: &[],
        feed_fails: &[],
        ..failing
    };
    let again = run(alloc, &mut disk, script)?;
    Some(is_stopped(&ran, why) && (again.last, again.bound) == (4, 3))
}

/// The bytes of a store, and how many calls a disk that holds them has before the first turn of a run.
fn store_bytes(alloc: Global) -> Option<(Vec<u8>, u64)> {
    let disk = store(alloc, Guest::Echo)?;
    let calls = disk.disk.calls();
    let most = disk.disk.most(calls);
    let bytes = disk.disk.image(alloc, calls, most, &[0; 4096]).ok()?;
    let mut copy = Untold::new(alloc, &bytes, &[]).ok()?;
    let ran = run(alloc, &mut copy, Script::new(&[], &[], 0))?;
    Some((bytes, ran.before as u64))
}

fn each_call_of_the_disk(alloc: Global) -> Option<bool> {
    let first = message(alloc, 1)?;
    let packets: [&[u8]; 1] = [&first];
    let script = Script::new(&[], &packets, 60000);
    let (bytes, before) = store_bytes(alloc)?;
    for call in 1..=12 {
        let disk = Untold::new(alloc, &bytes, &[before.checked_add(call)?]).ok()?;
        if !stops(alloc, disk, script, Stop::DiskFault)? {
            return Some(false);
        }
    }
    Some(true)
}

#[test]
fn a_failing_disk_stops_the_recorder(rt: HostRuntime) {
    assert_eq!(rt; each_call_of_the_disk(rt.alloc()), Some(true));
}

fn each_call_of_the_outlet(alloc: Global) -> Option<bool> {
    let first = message(alloc, 1)?;
    let packets: [&[u8]; 1] = [&first];
    for call in 1..=3 {
        let script = Script {
            outlet_fails: &[call],
            ..Script::new(&[], &packets, 60000)
        };
        if !stops(alloc, store(alloc, Guest::Echo)?, script, Stop::OutletFault)? {
            return Some(false);
        }
    }
    Some(true)
}

#[test]
fn a_failing_outlet_stops_the_recorder(rt: HostRuntime) {
    assert_eq!(rt; each_call_of_the_outlet(rt.alloc()), Some(true));
}

fn each_call_of_the_feed(alloc: Global) -> Option<bool> {
    let first = message(alloc, 1)?;
    let packets: [&[u8]; 1] = [&first];
    for call in 1..=4 {
        let script = Script {
            feed_fails: &[call],
            ..Script::new(&[], &packets, 60000)
        };
        if !stops(alloc, store(alloc, Guest::Echo)?, script, Stop::FeedFault)? {
            return Some(false);
        }
    }
    Some(true)
}

#[test]
fn a_failing_feed_stops_the_recorder(rt: HostRuntime) {
    assert_eq!(rt; each_call_of_the_feed(rt.alloc()), Some(true));
}
