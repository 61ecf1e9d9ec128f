//! Entries in bytes that an independent program made, and each field at its bounds.

ghost use Rattle.std.specs.Prelude.{◌<◌, length};

use avm_num::{Room, View};
use log_entry::{Content, Frame, Frames, content, is_ack, is_data, put_frame, read_frame};
use std::alloc::{AllocError, Global};
use std::process::Abort;
use std::test::Fail;

mod values;

use values::{ACK, BOOT, DATA, HALT, OUT};

const TOP: u64 = (1 << 62) - 1;

/// The pieces one after another.
fn joined(alloc: Global, pieces: &[&[u8]]) -> Result<Vec<u8>, AllocError> {
    let mut all = Vec::new(alloc);
    for piece in pieces {
        all.extend_from_slice(piece)?;
    }
    Ok(all)
}

fn length_of(bytes: &[u8]) -> [u8; 4] {
    u32::try_from(bytes.len()).unwrap_or(0).to_be_bytes()
}

/// A packet with a signature of so many bytes.
fn packet(
    alloc: Global,
    tag: u8,
    seq: u64,
    inner: &[u8],
    sig: usize,
) -> Result<Vec<u8>, AllocError> {
    let sig = vec![in alloc; 5u8; sig]?;
    let content_len = length_of(inner);
    let sig_len = length_of(sig.as_slice());
    joined(
        alloc,
        &[
            &[tag],
            &[0, 0, 0, 9],
            &seq.to_be_bytes(),
            &[3; 32],
            &content_len,
            inner,
            &sig_len,
            sig.as_slice(),
        ],
    )
}

/// The content of a message with a payload of so many bytes.
fn message(alloc: Global, count: u64, number: u64, payload: usize) -> Result<Vec<u8>, AllocError> {
    let payload = vec![in alloc; 6u8; payload]?;
    joined(
        alloc,
        &[
            &count.to_be_bytes(),
            &[0, 0, 0, 3],
            &number.to_be_bytes(),
            payload.as_slice(),
        ],
    )
}

fn has_form(kind: u8, content_bytes: &[u8]) -> bool {
    content(&Frame {
        seq: 1,
        kind,
        content: content_bytes,
    })
    .is_some()
}

#[tactic(auto, unfolding(avm_num::specs::Room::left))]
fn written(alloc: Global, seq: u64, kind: u8, content: &[u8]) -> Option<Room>
    requires { length content.now < 80 }
{
    match Room::new(alloc, 100) {
        Ok(mut room) => {
            put_frame(&mut room, seq, kind, content);
            Some(room)
        }
        Err(_) => None,
    }
}

/// An entry is read, written again, and no frame where its bytes are cut.
fn stands(rt: &impl Abort, alloc: Global, seq: u64, kind: u8, bytes: &[u8]) {
    let mut view = View::new(bytes);
    let frame = read_frame(&mut view).expect(rt, "a frame");
    assert_eq!(rt; (frame.seq, frame.kind), (seq, kind));
    assert!(rt; view.rest().is_empty());
    assert!(rt; frame.content.len() < 80);
    if let Some(room) = written(alloc, seq, kind, frame.content) {
        assert_eq!(rt; room.bytes(), bytes);
    }
    for short in 0..bytes.len() {
        assert!(rt;
            read_frame(&mut View::new(&bytes[..short])).is_none(),
            "cut at {short}"
        );
    }
}

#[test]
fn three_entries(rt: HostRuntime) -> Result<(), Fail> {
    stands(&rt, rt.alloc(), 1, 1, BOOT);
    stands(&rt, rt.alloc(), 2, 7, OUT);
    stands(&rt, rt.alloc(), 3, 9, HALT);
    let all = joined(rt.alloc(), &[BOOT, OUT, HALT, &[0]])?;
    let mut frames = Frames::new(all.as_slice());
    assert_eq!(rt; frames.next().expect(&rt, "BOOT").content, &BOOT[13..]);
    assert_eq!(rt; frames.next().expect(&rt, "OUT").content, &OUT[13..]);
    assert_eq!(rt; frames.next().expect(&rt, "HALT").content, &HALT[13..]);
    assert!(rt; frames.next().is_none());
    assert_eq!(rt; frames.rest(), [0].as_slice());
    Ok(())
}

/// Kind, count, bytes behind the count, and whether the content has its kind's form.
const FORMS: [(u8, u64, usize, bool); 45] = [
    (1, 0, 32, true),
    (1, 0, 31, false),
    (1, 0, 33, false),
    (1, 0, 0, false),
    (1, 1, 32, false),
    (2, 0, 32, true),
    (2, TOP, 32, true),
    (2, TOP + 1, 32, false),
    (2, 5, 31, false),
    (2, 5, 33, false),
    (3, 0, 0, false),
    (3, 0, 1, true),
    (3, 0, 256, true),
    (3, 0, 257, false),
    (3, TOP, 1, true),
    (3, TOP + 1, 1, false),
    (4, 0, 7, false),
    (4, 0, 8, true),
    (4, 0, 9, false),
    (4, TOP, 8, true),
    (4, TOP + 1, 8, false),
    (5, 0, 78, false),
    (6, 0, 141, false),
    (7, 0, 0, false),
    (7, 0, 1, true),
    (7, 0, 128, true),
    (7, 0, 129, false),
    (7, TOP, 1, true),
    (7, TOP + 1, 1, false),
    (8, 0, 11, false),
    (8, 0, 12, true),
    (8, 0, 1036, true),
    (8, 0, 1037, false),
    (8, TOP, 12, true),
    (8, TOP + 1, 12, false),
    (9, 0, 7, false),
    (9, 0, 8, true),
    (9, 0, 9, false),
    (9, TOP, 8, true),
    (9, TOP + 1, 8, false),
    (0, 0, 32, false),
    (10, 0, 8, false),
    (10, 0, 32, false),
    (74, 0, 32, false),
    (255, 0, 1, false),
];

/// A number of an entry or a message, and whether it may be one.
const NUMBERS: [(u64, bool); 5] = [
    (0, false),
    (1, true),
    (TOP, true),
    (TOP + 1, false),
    (u64::MAX, false),
];

#[test]
fn each_bound(rt: HostRuntime) -> Result<(), Fail> {
    let alloc = rt.alloc();
    for (kind, count, behind, has) in FORMS {
        let behind = vec![in alloc; 7u8; behind]?;
        let bytes = joined(alloc, &[&count.to_be_bytes(), behind.as_slice()])?;
        assert_eq!(rt;
            has_form(kind, bytes.as_slice()),
            has,
            "kind {kind} count {count}"
        );
    }
    for short in 0..8 {
        assert!(rt; !has_form(7, &[0; 8][..short]), "a count of {short} bytes");
    }
    for (number, fits) in NUMBERS {
        let frame = joined(
            alloc,
            &[&number.to_be_bytes(), &[7, 0, 0, 0, 9], &[0; 8], &[65]],
        )?;
        assert_eq!(rt;
            read_frame(&mut View::new(frame.as_slice())).is_some(),
            fits,
            "frame {number}"
        );
        let send = message(alloc, 4, number, 2)?;
        assert_eq!(rt; has_form(8, send.as_slice()), fits, "message {number}");
        let data = packet(alloc, 1, number, message(alloc, 4, 1, 2)?.as_slice(), 3)?;
        assert_eq!(rt; is_data(data.as_slice()), fits, "packet {number}");
    }
    Ok(())
}

#[test]
fn packets_in_entries(rt: HostRuntime) -> Result<(), Fail> {
    let alloc = rt.alloc();
    assert_eq!(rt;
        (is_data(DATA), is_ack(DATA), is_data(ACK), is_ack(ACK)),
        (true, false, false, true)
    );
    let recv = joined(alloc, &[&[0; 8], DATA])?;
    let acked = joined(alloc, &[&[0; 8], ACK])?;
    assert!(rt; has_form(5, recv.as_slice()) && has_form(6, acked.as_slice()));
    assert!(rt; !has_form(6, recv.as_slice()) && !has_form(5, acked.as_slice()));
    for short in 0..DATA.len() {
        assert!(rt; !is_data(&DATA[..short]), "cut at {short}");
    }
    for short in 0..ACK.len() {
        assert!(rt; !is_ack(&ACK[..short]), "cut at {short}");
    }
    for (whole, kind) in [(DATA, 5), (ACK, 6)] {
        let longer = joined(alloc, &[whole, &[0]])?;
        assert!(rt; !is_data(longer.as_slice()) && !is_ack(longer.as_slice()));
        let content = joined(alloc, &[&[0; 8], longer.as_slice()])?;
        assert!(rt;
            !has_form(kind, content.as_slice()),
            "a byte behind a packet"
        );
    }
    Ok(())
}

#[test]
fn longest_packets(rt: HostRuntime) -> Result<(), Fail> {
    let alloc = rt.alloc();
    let send = message(alloc, 1, 1, 1024)?;
    let data = packet(alloc, 1, 1, send.as_slice(), 9324)?;
    assert!(rt; is_data(data.as_slice()));
    assert!(rt;
        !is_data(packet(alloc, 1, 1, send.as_slice(), 9325)?.as_slice()),
        "a signature too long"
    );
    assert!(rt;
        !is_data(packet(alloc, 1, 1, message(alloc, 1, 1, 1025)?.as_slice(), 0)?.as_slice()),
        "a message too long"
    );
    assert!(rt;
        !is_data(packet(alloc, 1, 1, message(alloc, TOP + 1, 1, 0)?.as_slice(), 0)?.as_slice()),
        "a count too high"
    );
    assert!(rt;
        !is_data(packet(alloc, 3, 1, send.as_slice(), 0)?.as_slice()),
        "another first byte"
    );
    let recv = joined(alloc, &[&[0; 8], data.as_slice()])?;
    let ack = packet(alloc, 2, 1, recv.as_slice(), 9324)?;
    let acked = joined(alloc, &[&[0; 8], ack.as_slice()])?;
    assert_eq!(rt; acked.len(), 19814);
    assert!(rt; has_form(6, acked.as_slice()));
    assert!(rt;
        !is_ack(packet(alloc, 2, 1, recv.as_slice(), 9325)?.as_slice()),
        "a signature too long"
    );
    Ok(())
}

#[test]
fn what_contents_say(rt: HostRuntime) -> Result<(), Fail> {
    let out = Frame {
        seq: 2,
        kind: 7,
        content: &[0, 0, 0, 0, 0, 0, 0, 5, 72, 10],
    };
    let Some(Content::Out { count, bytes }) = content(&out) else {
        return Err("no OUT")?;
    };
    assert_eq!(rt; (count, bytes), (5, [72, 10].as_slice()));
    let send = Frame {
        seq: 2,
        kind: 8,
        content: &[
            0, 0, 0, 0, 0, 0, 0, 9, 0, 0, 0, 3, 0, 0, 0, 0, 0, 0, 0, 1, 104, 105,
        ],
    };
    let Some(
        Content::Send {
            count,
            peer,
            number,
            payload,
        },
    ) = content(&send)
    else {
        return Err("no SEND")?;
    };
    assert_eq!(rt; (count, peer, number, payload), (9, 3, 1, b"hi".as_slice()));
    let halt = Frame {
        seq: 2,
        kind: 9,
        content: &[0, 0, 0, 0, 0, 0, 0, 6, 0, 0, 0, 1, 0, 0, 0, 2],
    };
    let Some(
        Content::Halt {
            count,
            cause,
            value,
        },
    ) = content(&halt)
    else {
        return Err("no HALT")?;
    };
    assert_eq!(rt; (count, cause, value), (6, 1, 2));
    Ok(())
}
