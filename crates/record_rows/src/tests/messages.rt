//! The guest that sends messages back.

use super::running::{NONE, Ran, crashed, disk_of, lines_of, record_on};
use super::stores::{KEY, echo, messages};
use avm_outside::MemDisk;
use std::alloc::Global;

/// The line of a run in which one message was answered.
pub const ANSWERED: &str = "recorded entries 4 dropped 0 leaves 3 waiting\n";

/// The lines of its store behind BOOT's.
pub const LINES: &[u8] = b"2 RECV 0 1 1\n3 CLOCK 21 0\n4 SEND 24600 1 1 70696e67\nseal 4\n";

/// The first of them, before the answer.
const BEFORE: &[u8] = b"2 RECV 0 1 1\n";

/// How many bytes BOOT's line has.
const BOOT: usize = 74;

/// Without an event.
pub const ON: &[u8] = b"end 60000\n";

/// The script in which one message comes.
pub fn one_message(alloc: Global) -> Option<Vec<u8>> {
    messages(alloc, &[1], "end 60000\n")
}

/// The lines of a store behind BOOT's are these.
fn goes_on_as(alloc: Global, disk: &mut MemDisk, lines: &[u8]) -> Option<bool> {
    Some(lines_of(alloc, disk)?.bytes().get(BOOT..) == Some(lines))
}

/// The bytes behind the first packet of a file.
fn behind_first(packets: &[u8]) -> Option<&[u8]> {
    let size = packets.first_chunk::<8>()?;
    let len = u32::from_be_bytes([size[4], size[5], size[6], size[7]]) as usize;
    packets.get(len.checked_add(8)?..)
}

/// A repeated message is dropped, and its acknowledgement released again; one out of turn is dropped.
fn repeated_messages(alloc: Global) -> Option<bool> {
    let mut disk = disk_of(alloc, &echo(alloc)?, 0)?;
    let script = messages(alloc, &[1, 1, 3], "end 0\n")?;
    let ran = record_on(alloc, KEY, &script, &mut disk, NONE)?;
    let packets = ran.file("p");
    let second = behind_first(packets)?;
    Some(
        ran.ended(
            "dropped repeated 0\ndropped wrongnumber 0\nrecorded entries 2 dropped 2 leaves 2 running\n",
            0,
        ) && !second.is_empty()
            && behind_first(second)?.is_empty()
            && packets.get(..second.len()) == Some(second),
    )
}

#[test]
fn a_repeated_message_is_acknowledged_again(rt: HostRuntime) {
    assert_eq!(rt; repeated_messages(rt.alloc()), Some(true));
}

/// The recording of one message on a new store, without a fault.
pub fn answered(alloc: Global, store: &[u8]) -> Option<Ran> {
    let mut disk = disk_of(alloc, store, 0)?;
    let script = one_message(alloc)?;
    let ran = record_on(alloc, KEY, &script, &mut disk, NONE)?;
    if ran.ended(ANSWERED, 0) && goes_on_as(alloc, &mut disk, LINES)? {
        Some(ran)
    } else {
        None
    }
}

/// An acknowledgement, the answer, and the authenticator of a seal.
fn one_answer(alloc: Global) -> Option<bool> {
    let ran = answered(alloc, &echo(alloc)?)?;
    let answer = behind_first(ran.file("p"))?;
    Some(
        !answer.is_empty()
            && behind_first(answer)?.is_empty()
            && ran.file("a").len() == 8728
            && ran.file("c").is_empty(),
    )
}

#[test]
fn a_message_is_answered(rt: HostRuntime) {
    assert_eq!(rt; one_answer(rt.alloc()), Some(true));
}

/// Whether an image holds the answer, or goes on to it with the same bytes: those of the whole run.
fn image_goes_on(alloc: Global, image: &[u8], whole: &Ran) -> Option<bool> {
    let mut disk = disk_of(alloc, image, 0)?;
    let before = goes_on_as(alloc, &mut disk, BEFORE)?;
    let saved = lines_of(alloc, &mut disk)?.bytes().get(BOOT..)
        == LINES.get(..LINES.len().checked_sub(7)?);
    let ran = record_on(alloc, KEY, ON, &mut disk, NONE)?;
    let answer = behind_first(whole.file("p"))?;
    Some(
        before != saved
            && ran.ended(ANSWERED, 0)
            && ran.file("a") == whole.file("a")
            && ran.file("p") == if before { answer } else { &[] },
    )
}

/// Whether a run whose disk fails at this call released no answer, and each image of it goes on.
fn stops_at(alloc: Global, store: &[u8], script: &[u8], call: u64, whole: &Ran) -> Option<bool> {
    let mut disk = disk_of(alloc, store, call)?;
    let ran = record_on(alloc, KEY, script, &mut disk, NONE)?;
    if !ran.ended("fault disk\n", 4) || !behind_first(ran.file("p"))?.is_empty() {
        return Some(false);
    }
    for (fill, long) in [
        (0x00, false),
        (0x00, true),
        (0x01, false),
        (0x01, true),
        (0xff, false),
        (0xff, true),
    ] {
        let image = crashed(alloc, &disk, disk.calls(), long, fill)?;
        if !image_goes_on(alloc, &image, whole)? {
            return Some(false);
        }
    }
    Some(true)
}

/// The number of the first call at which the store has the message already, found by trying.
fn first_behind_the_message(alloc: Global, store: &[u8], script: &[u8]) -> Option<u64> {
    for call in 1..1000u64 {
        let mut disk = disk_of(alloc, store, call)?;
        let ran = record_on(alloc, KEY, script, &mut disk, NONE)?;
        if !ran.file("p").is_empty() {
            return Some(call);
        }
    }
    None
}

/// The four calls of the commit with the answer.
fn each_call_of_the_answer(alloc: Global) -> Option<bool> {
    let store = echo(alloc)?;
    let script = one_message(alloc)?;
    let whole = answered(alloc, &store)?;
    let first = first_behind_the_message(alloc, &store, &script)?;
    for n in 0..4 {
        if !stops_at(alloc, &store, &script, first.checked_add(n)?, &whole)? {
            return Some(false);
        }
    }
    Some(true)
}

#[test]
fn an_answer_is_not_released_before_it_is_saved(rt: HostRuntime) {
    assert_eq!(rt; each_call_of_the_answer(rt.alloc()), Some(true));
}
