//! The same in pieces of any size, of a machine of four pages: a segment of one page is no longer than a front.

use super::bank::{AUTHS, PUBLIC, ROOT};
use super::cases::ROWS;
use super::{Row, auth_file, push_frame, push_letter, segment_file, signed};
use auditor::{AuditStream, Verdict};
use avm_hash::Digest;
use log_chain::next;
use log_entry::Frames;
use std::alloc::{AllocError, Global};

/// The state's root before its first step with four pages, by an independent program.
const ROOT_OF_FOUR: [u8; 32] = [
    0x54, 0x7f, 0x4d, 0xfc, 0x2c, 0x72, 0xab, 0x3a, 0x4a, 0x0a, 0x08, 0x53, 0xfc, 0x61, 0xea, 0x1b,
    0x28, 0x5c, 0x65, 0x08, 0xc8, 0x46, 0x2a, 0x70, 0x53, 0x0c, 0x0e, 0x1e, 0x0b, 0x1e, 0xad, 0x25,
];

/// How many bytes a front needs.
const FRONT: usize = 16384;

/// Where entry 2 of `Boh` ends.
const SECOND: usize = 17701;

const ACCEPTED: Verdict = Verdict::Accepted {
    first: 1,
    last: 3,
    cover: 0,
};

/// The entries of whose chain an authenticator's hash is, by the first letter of its name; none where it is no chain's.
fn letters_of(name: u8) -> &'static [u8] {
    match name {
        b'r' => b"Boh",
        b'R' => b"Boh",
        b'!' => b"Boh",
        b'w' => b"Behh",
        b'W' => b"Behh",
        b'u' => b"Zoh",
        b'x' => b"Bho",
        b's' => b"Soh",
        b't' => b"Seh",
        _ => b"",
    }
}

/// The hash of an authenticator of this name: its own, where it is no chain's.
fn hash_of(
    alloc: Global,
    name: [u8; 2],
    own: [u8; 32],
    root: &[u8; 32],
) -> Result<[u8; 32], AllocError> {
    let letters = letters_of(name[0]);
    let number = u64::from(name[1].wrapping_sub(b'0'));
    let mut seq = if letters.first() == Some(&b'S') { 4 } else { 1 };
    let mut hash = Digest([if seq == 1 { 0 } else { 9 }; 32]);
    let mut frames = Vec::new(alloc);
    for letter in letters {
        push_letter(&mut frames, seq, *letter, root)?;
        seq = seq.wrapping_add(1);
    }
    let mut found = own;
    for frame in Frames::new(&frames) {
        hash = next(&hash, frame.seq, frame.kind, frame.content);
        if frame.seq == number {
            found = hash.0;
        }
    }
    Ok(found)
}

fn hashes(alloc: Global, root: &[u8; 32]) -> Result<Vec<[u8; 32]>, AllocError> {
    let mut all = Vec::new(alloc);
    for (name, own) in AUTHS {
        all.push(hash_of(alloc, *name, own, root)?)?;
    }
    Ok(all)
}

/// The verdict on a front of so many bytes with the rest in pieces of a size.
fn verdict_in(
    alloc: Global,
    segment: &[u8],
    auths: &[u8],
    front: usize,
    size: usize,
) -> Option<Verdict> {
    let (front, rest) = segment.split_at(segment.len().min(front));
    let Ok(mut stream) = AuditStream::open(alloc, &PUBLIC, front, auths) else {
        return None;
    };
    for piece in rest.chunks(size.max(1)) {
        if stream.takes_more() {
            stream.feed(piece);
        }
    }
    Some(stream.finish())
}

/// The segment of four pages with these entries.
fn of_four(alloc: Global, letters: &'static [u8]) -> Result<Vec<u8>, AllocError> {
    let row: Row = (1, 0, 0, letters, b"", Verdict::Malformed);
    segment_file(alloc, &row, 4, &ROOT_OF_FOUR)
}

#[test]
fn each_verdict(rt: HostRuntime) -> Result<(), AllocError> {
    let alloc = rt.alloc();
    assert!(rt; hashes(alloc, &ROOT)?.as_slice() == super::banked(alloc)?.as_slice());
    let all = signed(alloc, &hashes(alloc, &ROOT_OF_FOUR)?)?;
    for row in &ROWS {
        let segment = segment_file(alloc, row, 4, &ROOT_OF_FOUR)?;
        let auths = auth_file(alloc, all.as_slice(), row.4)?;
        for size in [1, 7, 65536] {
            let verdict = verdict_in(alloc, &segment, &auths, FRONT, size);
            assert_eq!(rt; verdict, Some(row.5));
        }
    }
    Ok(())
}

#[test]
fn a_segment_cut_anywhere(rt: HostRuntime) -> Result<(), AllocError> {
    let alloc = rt.alloc();
    let good = of_four(alloc, b"Boh")?;
    let bad = of_four(alloc, b"Beh")?;
    assert_eq!(rt; good.len(), 17730);
    for front in FRONT..=good.len() {
        assert_eq!(rt; verdict_in(alloc, &good, b"", front, 65536), Some(ACCEPTED));
        assert_eq!(rt;
            verdict_in(alloc, &bad, b"", front, 65536),
            Some(Verdict::Uncovered(2))
        );
        let cut = good.get(..front).unwrap_or_default();
        let verdict = match front {
            17678 => Verdict::Accepted {
                first: 1,
                last: 1,
                cover: 0,
            },
            SECOND => Verdict::Accepted {
                first: 1,
                last: 2,
                cover: 0,
            },
            17730 => ACCEPTED,
            _ => Verdict::Malformed,
        };
        assert_eq!(rt; verdict_in(alloc, cut, b"", FRONT, 7), Some(verdict));
    }
    let cut = bad.get(..SECOND).unwrap_or_default();
    assert_eq!(rt;
        verdict_in(alloc, cut, b"", FRONT, 1),
        Some(Verdict::Uncovered(2))
    );
    Ok(())
}

#[test]
fn a_front_alone(rt: HostRuntime) -> Result<(), AllocError> {
    let alloc = rt.alloc();
    let good = of_four(alloc, b"Boh")?;
    for len in (0..FRONT).step_by(1021) {
        let front = good.get(..len).unwrap_or_default();
        let Ok(stream) = AuditStream::open(alloc, &PUBLIC, front, b"") else {
            panic!(rt; "no memory")
        };
        assert!(rt; !stream.takes_more());
        assert_eq!(rt; stream.finish(), Verdict::Malformed);
    }
    // A byte of the head that isn't one, and of the magic.
    for at in [49, 0] {
        let mut changed = Vec::from_slice(alloc, &good)?;
        if let Some(byte) = changed.get_mut(at) {
            *byte ^= 0x10;
        }
        assert_eq!(rt;
            verdict_in(alloc, &changed, b"", FRONT, 1),
            Some(Verdict::Malformed)
        );
    }
    Ok(())
}

/// A segment that begins with SNAP and has so many.
fn of_snaps(alloc: Global, count: u64) -> Result<Vec<u8>, AllocError> {
    let row: Row = (4, 0, 0, b"", b"", Verdict::Malformed);
    let mut out = segment_file(alloc, &row, 4, &ROOT_OF_FOUR)?;
    for i in 0..count {
        push_letter(&mut out, i.wrapping_add(4), b'S', &ROOT_OF_FOUR)?;
    }
    Ok(out)
}

#[test]
fn as_many_snapshots_as_may_be(rt: HostRuntime) -> Result<(), AllocError> {
    let alloc = rt.alloc();
    let most = of_snaps(alloc, 64)?;
    let more = of_snaps(alloc, 65)?;
    for size in [1, 7, 65536] {
        assert_eq!(rt;
            verdict_in(alloc, &most, b"", FRONT, size),
            Some(Verdict::Uncovered(5))
        );
        assert_eq!(rt;
            verdict_in(alloc, &more, b"", FRONT, size),
            Some(Verdict::Malformed)
        );
    }
    Ok(())
}

/// A segment of BOOT and console inputs, of so many bytes. The queue of 1024 bytes has no room for the fifth input.
fn of_inputs(alloc: Global, len: usize) -> Result<Vec<u8>, AllocError> {
    let mut out = of_four(alloc, b"B")?;
    for seq in 2..300_000 {
        if out.len() >= len {
            break;
        }
        // Behind a frame's 13 bytes stand the count, of 8, and 1 to 256 bytes that are typed in.
        let left = len.saturating_sub(out.len()).saturating_sub(21);
        let some = if left <= 256 { left } else { 235 };
        let typed = [0x61; 256];
        push_frame(
            &mut out,
            seq,
            3,
            &[&[0; 8], typed.get(..some).unwrap_or_default()],
        )?;
    }
    Ok(out)
}

#[test]
fn as_many_bytes_as_may_be(rt: HostRuntime) -> Result<(), AllocError> {
    let alloc = rt.alloc();
    let rows = [
        (1 << 26, Verdict::Uncovered(6)),
        ((1 << 26) + 1, Verdict::Malformed),
    ];
    for (len, verdict) in rows {
        let segment = of_inputs(alloc, len)?;
        assert_eq!(rt; segment.len(), len);
        assert_eq!(rt;
            verdict_in(alloc, &segment, b"", FRONT, 65536),
            Some(verdict)
        );
    }
    Ok(())
}
