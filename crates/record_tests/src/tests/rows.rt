//! Runs over disks, feeds and outlets that don't fail, and one authenticator that isn't released whole.

use crate::tests::running::{Ran, Script, run};
use crate::tests::stores::{Guest, message, store};
use avm_model::NotTaken;
use recorder::{Sealed, Stop, Turn};
use std::alloc::Global;

/// Whether a run ended by its script and was sealed, with so many entries and used leaves.
fn recorded(ran: &Ran, last: u64, bound: u64) -> bool {
    ran.turn == Turn::End && ran.sealed == Sealed::Done && ran.last == last && ran.bound == bound
}

/// Lines of 256 bytes fill the guest's input.
fn lines_past_the_input(alloc: Global) -> Option<bool> {
    let mut disk = store(alloc, Guest::Spins)?;
    let line: &[u8] = &[0x41; 256];
    let ran = run(
        alloc,
        &mut disk,
        Script::new(&[line, line, line, line, b"B"], &[], 100),
    )?;
    Some(recorded(&ran, 5, 1) && ran.drops.as_slice() == [NotTaken::Full].as_slice())
}

#[test]
fn a_full_input_drops_what_comes(rt: HostRuntime) {
    assert_eq!(rt; lines_past_the_input(rt.alloc()), Some(true));
}

/// Each run uses a leaf, and the key has 32.
fn runs_until_no_leaf_is_left(alloc: Global) -> Option<bool> {
    let mut disk = store(alloc, Guest::Spins)?;
    let script = Script::new(&[b"A"], &[], 0);
    for r in 1..=32 {
        if !recorded(&run(alloc, &mut disk, script)?, r + 1, r) {
            return Some(false);
        }
    }
    let ran = run(alloc, &mut disk, script)?;
    let ended = (
        Turn::Ended(Stop::LeavesSpent),
        Sealed::Ended(Stop::LeavesSpent),
    );
    let again = run(alloc, &mut disk, Script::new(&[], &[], 0))?;
    Some(
        ran.sealed == Sealed::Stopped(Stop::LeavesSpent)
            && ran.behind == Some(ended)
            && (ran.last, ran.bound) == (33, 32)
            && again.sealed == Sealed::Again
            && (again.last, again.bound) == (33, 32),
    )
}

#[test]
fn a_key_has_as_many_runs_as_leaves(rt: HostRuntime) {
    assert_eq!(rt; runs_until_no_leaf_is_left(rt.alloc()), Some(true));
}

/// A repeated message is dropped, and its acknowledgement released again; one out of turn is dropped.
fn repeated_messages(alloc: Global) -> Option<bool> {
    let mut disk = store(alloc, Guest::Echo)?;
    let first = message(alloc, 1)?;
    let third = message(alloc, 3)?;
    let ran = run(
        alloc,
        &mut disk,
        Script::new(&[], &[&first, &first, &third], 0),
    )?;
    let (to, ack) = ran.outlet.packet_at(0)?;
    Some(
        recorded(&ran, 2, 2)
            && ran.drops.as_slice() == [NotTaken::Repeated, NotTaken::WrongNumber].as_slice()
            && to == 1
            && ran.outlet.packet_at(1) == Some((1, ack))
            && ran.outlet.packet_at(2).is_none(),
    )
}

#[test]
fn a_repeated_message_is_acknowledged_again(rt: HostRuntime) {
    assert_eq!(rt; repeated_messages(rt.alloc()), Some(true));
}

/// A message is answered; then the same with an outlet that fails at the authenticator, which the next run releases whole.
fn an_authenticator_that_fails(alloc: Global) -> Option<bool> {
    let first = message(alloc, 1)?;
    let packets: [&[u8]; 1] = [&first];
    let script = Script::new(&[], &packets, 60000);
    let whole = run(alloc, &mut store(alloc, Guest::Echo)?, script)?;
    let mut disk = store(alloc, Guest::Echo)?;
    let torn = run(
        alloc,
        &mut disk,
        Script {
            outlet_fails: &[3],
            ..script
        },
    )?;
    let again = run(alloc, &mut disk, Script::new(&[], &[], 60000))?;
    let packets_are_equal = (0..2).all(|i| whole.outlet.packet_at(i) == torn.outlet.packet_at(i));
    Some(
        recorded(&whole, 4, 3)
            && torn.sealed == Sealed::Stopped(Stop::OutletFault)
            && packets_are_equal
            && whole.outlet.packet_at(1).is_some()
            && whole.outlet.packet_at(2).is_none()
            && again.sealed == Sealed::Again
            && (again.last, again.bound) == (4, 3)
            && whole.outlet.auth_at(0).is_some()
            && again.outlet.auth_at(0) == whole.outlet.auth_at(0),
    )
}

#[test]
fn an_authenticator_is_released_again(rt: HostRuntime) {
    assert_eq!(rt; an_authenticator_that_fails(rt.alloc()), Some(true));
}
