// Scripts, by an independent program's reading of the rules.
use avm_outside::{Due, Failed, Feed};
use avm_script::{ReadFault, Script, ScriptFeed};
use std::alloc::{AllocError, Global};

const GOOD: [&[u8]; 10] = [
    b"end 0\n",
    b"clock 18446744073709551615\nend 4611686018427387903\n",
    b"at 0 console 4A4b\nat 0 packet 00\nat 7 resend 15\nend 7\n",
    b"# \xff at\n\nclock 0\nend 3\n\n# behind\n",
    b"at 3 console 41\nclock 5\nat 3 console 42\nend 3\n",
    b"#\nend 10\n",
    b"#end 1\nend 2\n",
    b"at 4611686018427387903 resend 0\nend 4611686018427387903\n",
    b"\n\n\nend 1\n\n",
    b"#\t \r\nend 1\n",
];

const BAD_1: [&[u8]; 18] = [
    b"",
    b"\n",
    b"end 0",
    b"end 0\nend 0\n",
    b"end 0\nclock 1\n",
    b"end 0\nat 0 resend 1\n",
    b"end 0\n#",
    b"end 0\n ",
    b"#\n",
    b"clock 1\n",
    b"end 4611686018427387904\n",
    b"clock 18446744073709551616\nend 0\n",
    b"at 4611686018427387904 resend 1\nend 4611686018427387903\n",
    b"end 00\n",
    b"end +1\n",
    b"end -1\n",
    b"end  1\n",
    b"end 1 \n",
];

const BAD_2: [&[u8]; 18] = [
    b" end 1\n",
    b"end\t1\n",
    b"end\n",
    b"end \n",
    b"End 1\n",
    b"end 1\r\n",
    b"end 1 # one\n",
    b"end 1 1\n",
    b"clock\nend 1\n",
    b"clock 01\nend 1\n",
    b"clock 1 2\nend 1\n",
    b"clock 1\x80\nend 9\n",
    b"at 4 console 41\nat 3 console 41\nend 9\n",
    b"at 4 console 41\nend 3\n",
    b"at 4 console\nend 9\n",
    b"at 4 console \nend 9\n",
    b"at 4 console 4\nend 9\n",
    b"at 4 console 414\nend 9\n",
];

const BAD_3: [&[u8]; 17] = [
    b"at 4 console 4g\nend 9\n",
    b"at 4 console 41 \nend 9\n",
    b"at 4  console 41\nend 9\n",
    b"at 4 console 0x41\nend 9\n",
    b"at 4 Console 41\nend 9\n",
    b"at 4 packet\nend 9\n",
    b"at 4 packet 0\nend 9\n",
    b"at 4 resend 16\nend 9\n",
    b"at 4 resend 015\nend 9\n",
    b"at 4 resend\nend 9\n",
    b"at 4 other 41\nend 9\n",
    b"at 04 console 41\nend 9\n",
    b"at console 41\nend 9\n",
    b"at 4\nend 9\n",
    b"at\nend 9\n",
    b"begin 1\nend 9\n",
    b"end 1\x00\n",
];

// Whether all of them are read, or all refused.
fn are_judged(alloc: Global, table: &[&[u8]], good: bool) -> bool {
    for bytes in table {
        match Script::read(alloc, bytes) {
            Ok(_) if good => {}
            Err(ReadFault::Refused) if !good => {}
            _ => return false,
        }
    }
    true
}

// A script of one event with so many bytes.
fn long(alloc: Global, kind: &str, count: u32) -> Result<String, AllocError> {
    let mut text = String::from_str(alloc, "at 0 ")?;
    text.push_str(kind)?;
    text.push_str(" ")?;
    for _ in 0..count {
        text.push_str("0a")?;
    }
    text.push_str("\nend 0\n")?;
    Ok(text)
}

// Kinds, numbers of bytes, and whether an event may have so many.
const LENGTHS: [(&str, u32, bool); 4] = [
    ("console", 256, true),
    ("console", 257, false),
    ("packet", 20000, true),
    ("packet", 20001, false),
];

#[test]
fn scripts_are_judged(rt: HostRuntime) -> Result<(), AllocError> {
    assert!(rt; are_judged(rt.alloc(), &GOOD, true));
    assert!(rt; are_judged(rt.alloc(), &BAD_1, false));
    assert!(rt; are_judged(rt.alloc(), &BAD_2, false));
    assert!(rt; are_judged(rt.alloc(), &BAD_3, false));
    for (kind, count, good) in LENGTHS {
        let text = long(rt.alloc(), kind, count)?;
        assert!(rt; are_judged(rt.alloc(), &[text.as_bytes()], good));
    }
    Ok(())
}

// The counts that a feed is asked at, whether the machine runs, and the answer.
const ANSWERS: [(u64, bool, Due); 11] = [
    (0, true, Due::Later(4)),
    (3, true, Due::Later(4)),
    (4, true, Due::Console(2)),
    (4, true, Due::Later(6)),
    (5, false, Due::Resend(3)),
    (5, true, Due::Later(7)),
    (8, true, Due::Packet(1)),
    (8, true, Due::Later(9)),
    (8, false, Due::End),
    (9, true, Due::End),
    (10, false, Due::End),
];

#[test]
fn a_script_feeds(rt: HostRuntime) -> Result<(), Failed> {
    let bytes = b"clock 5\nat 4 console 410a\nat 6 resend 3\nat 7 packet ff\nclock 6\nend 9\n";
    let Ok(script) = Script::read(rt.alloc(), bytes) else {
        panic!(rt; "not read");
    };
    let mut feed = ScriptFeed::new(script);
    let mut buf = [0u8; 24576];
    for (count, running, due) in ANSWERS {
        assert_eq!(rt; feed.next(count, running, &mut buf)?, due);
    }
    assert!(rt; buf[0] == 0xff && buf[1] == 10);
    assert_eq!(rt; feed.clock()?, 5);
    assert_eq!(rt; feed.clock()?, 6);
    assert_eq!(rt; feed.clock()?, 6);
    Ok(())
}
