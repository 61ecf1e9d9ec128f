// Schedules, by an independent program's reading of the rules.
use std::alloc::{AllocError, Global};
use world_schedule::{DeedLine, ReadFault, Schedule};

// A node whose guest loops, but for the byte 10 that ends its line.
const NODE: &str = "node 1111111111111111111111111111111111111111111111111111111111111111 6f000000";

// What stands behind a node's line, with a byte 10 between the two, and whether that is a schedule.
const BEHIND_1: [(&str, bool); 20] = [
    ("", true),
    ("\n# x\n", true),
    ("0 turn\n", true),
    ("1 turn\n", true),
    ("4294967295 turn\n", true),
    ("4294967296 turn\n", false),
    ("00 turn\n", false),
    (" 0 turn\n", false),
    ("0  turn\n", false),
    ("0 turn \n", false),
    ("0 turn", false),
    ("0 turn 1\n", false),
    ("0 Turn\n", false),
    ("0\n", false),
    ("0 nothing\n", false),
    ("0 seal\n", true),
    ("0 seal 1\n", false),
    ("0 deliver 0\n", true),
    ("0 deliver\n", false),
    ("0 deliver 4294967296\n", false),
];

const BEHIND_2: [(&str, bool); 20] = [
    ("0 resend 15\n", true),
    ("0 resend 16\n", false),
    ("0 console 41\n", true),
    ("0 console 4A4b\n", true),
    ("0 console\n", false),
    ("0 console \n", false),
    ("0 console 4\n", false),
    ("0 turn crash 0 short 00\n", true),
    ("0 turn crash 0 long fF\n", true),
    ("0 turn crash 4294967295 long 00\n", true),
    ("0 turn crash 4294967296 long 00\n", false),
    ("0 turn crash 0 long f\n", false),
    ("0 turn crash 0 long 000\n", false),
    ("0 turn crash long 00\n", false),
    ("0 turn crash 0 wide 00\n", false),
    ("0 turn crash 00 long 00\n", false),
    ("0 turn crash 0 long 00 \n", false),
    ("0 turn crash 0 long 00 1\n", false),
    ("0 deliver 3 crash 2 short 01\n", true),
    ("0 seal crash 9 long 00\n0 turn\n", true),
];

// Whole schedules, in which a bar stands for the node's line.
const WHOLE: [(&str, bool); 16] = [
    ("", false),
    ("\n# x\n", false),
    ("|\n|\n", true),
    ("|\n|\n|\n|\n", true),
    ("|\n|\n|\n|\n|\n", false),
    ("|", false),
    ("# x\n\n|\n", true),
    ("0 turn\n|\n", false),
    ("|\n0 turn\n|\n", false),
    ("|\n0 turn\n\n# y\n0 seal\n", true),
    ("|7f454c46\n", true),
    (
        "node 1111111111111111111111111111111111111111111111111111111111111111 7f454c46\n",
        false,
    ),
    (
        "node 1111111111111111111111111111111111111111111111111111111111111111 7f454c\n",
        true,
    ),
    (
        "node 1111111111111111111111111111111111111111111111111111111111111111\n",
        false,
    ),
    (
        "node 111111111111111111111111111111111111111111111111111111111111111 6f000000\n",
        false,
    ),
    (
        "node 111111111111111111111111111111111111111111111111111111111111111g 6f000000\n",
        false,
    ),
];

// The text, in which a bar stands for the node's line.
fn text_of(alloc: Global, text: &str) -> Result<String, AllocError> {
    let mut whole = String::new(alloc);
    let mut first = true;
    for piece in text.split('|') {
        if !first {
            whole.push_str(NODE)?;
        }
        first = false;
        whole.push_str(piece)?;
    }
    Ok(whole)
}

// Whether a text is judged so.
fn is_judged(alloc: Global, text: &str, good: bool) -> bool {
    match Schedule::read(alloc, text.as_bytes()) {
        Ok(_) => good,
        Err(ReadFault::Refused) => !good,
        Err(ReadFault::NoMemory) => false,
    }
}

// Whether each of a table is judged so, behind a node's line.
fn are_judged(alloc: Global, table: &[(&str, bool)]) -> Result<bool, AllocError> {
    for (behind, good) in table {
        let mut text = String::from_str(alloc, NODE)?;
        text.push_str("\n")?;
        text.push_str(behind)?;
        if !is_judged(alloc, &text, *good) {
            return Ok(false);
        }
    }
    Ok(true)
}

// Console input, or an image, of so many bytes.
fn long(alloc: Global, front: &str, count: u32) -> Result<String, AllocError> {
    let mut text = String::from_str(alloc, front)?;
    for _ in 0..count {
        text.push_str("0a")?;
    }
    text.push_str("\n")?;
    Ok(text)
}

// What stands in front of bytes, how many there are, and whether that is a schedule.
const LENGTHS: [(&str, u32, bool); 4] = [
    ("0 console ", 256, true),
    ("0 console ", 257, false),
    (
        "node 2222222222222222222222222222222222222222222222222222222222222222 ",
        4096,
        true,
    ),
    (
        "node 2222222222222222222222222222222222222222222222222222222222222222 ",
        4097,
        false,
    ),
];

#[test]
fn schedules_are_judged(rt: HostRuntime) -> Result<(), AllocError> {
    let alloc = rt.alloc();
    assert!(rt; are_judged(alloc, &BEHIND_1)?);
    assert!(rt; are_judged(alloc, &BEHIND_2)?);
    for (text, good) in WHOLE {
        let text = text_of(alloc, text)?;
        assert!(rt; is_judged(alloc, &text, good));
    }
    for (front, count, good) in LENGTHS {
        let text = long(alloc, front, count)?;
        assert!(rt; are_judged(alloc, &[(text.as_str(), good)])?);
    }
    Ok(())
}

#[test]
fn a_schedule_is_read(rt: HostRuntime) -> Result<(), AllocError> {
    let text = text_of(
        rt.alloc(),
        "|\n0 deliver 7 crash 2 long fe\n3 console 410a\n0 resend 5\n0 seal\n",
    )?;
    let Ok(schedule) = Schedule::read(rt.alloc(), text.as_bytes()) else {
        panic!(rt; "not read");
    };
    assert!(rt; schedule.nodes.len() == 1 && schedule.nodes[0].seed == [0x11; 32]);
    assert!(rt; schedule.nodes[0].image.as_slice() == [0x6f, 0, 0, 0].as_slice());
    let events = &schedule.events;
    assert!(rt; events.len() == 4 && events[1].node == 3 && events[3].crash.is_none());
    assert!(rt; matches!(events[0].deed, DeedLine::Deliver(7)));
    assert!(rt;
        matches!(&events[1].deed, DeedLine::Console(input) if input.bytes.as_slice() == [0x41, 10].as_slice())
    );
    assert!(rt; matches!(events[2].deed, DeedLine::Resend(5)));
    assert!(rt; matches!(events[3].deed, DeedLine::Seal));
    match events[0].crash {
        Some(crash) => assert!(rt; crash.calls == 2 && crash.long && crash.fill == 0xfe),
        None => panic!(rt; "no crash"),
    }
    Ok(())
}
