use avm_model::Digest;
use avm_num::Room;
use seg_file::{Part, SegReader, put_front, read_segment};
use std::alloc::{AllocError, Global};
use std::rt::HostRuntime;

// A head of which only the page count is read: 1.
const HEAD: [u8; 10] = [1, 0, 0, 0, 4, 0, 0, 0, 0, 1];

/// Appends a frame.
fn push_frame(out: &mut Vec<u8>, seq: u64, kind: u8, content: &[u8]) -> Result<(), AllocError> {
    out.extend_from_slice(&seq.to_be_bytes())?;
    out.push(kind)?;
    out.extend_from_slice(&((content.len() % 65536) as u32).to_be_bytes())?;
    out.extend_from_slice(content)
}

/// What stands before the frames: 4155 bytes.
fn front(alloc: Global, start: u64, before: u8) -> Result<Vec<u8>, AllocError> {
    let mut out = Vec::new(alloc);
    out.extend_from_slice(b"AVMS\x01")?;
    out.extend_from_slice(&start.to_be_bytes())?;
    out.extend_from_slice(&[before; 32])?;
    out.extend_from_slice(&[0, 0, 0, 10])?;
    out.extend_from_slice(&HEAD)?;
    out.extend_from_slice(&[7; 4096])?;
    Ok(out)
}

/// BOOT, OUT and HALT: 4259 bytes.
fn booted(alloc: Global) -> Result<Vec<u8>, AllocError> {
    let mut out = front(alloc, 1, 0)?;
    push_frame(&mut out, 1, 1, &[0; 40])?;
    push_frame(&mut out, 2, 7, &[0, 0, 0, 0, 0, 0, 0, 5, 10])?;
    push_frame(&mut out, 3, 9, &[0; 16])?;
    Ok(out)
}

/// So many entries of a kind with contents of 40 zero bytes, and a first one of its own kind.
fn entries(
    alloc: Global,
    start: u64,
    before: u8,
    first: u8,
    kind: u8,
    count: u64,
) -> Result<Vec<u8>, AllocError> {
    let mut out = front(alloc, start, before)?;
    for i in 0..count {
        let now = if i == 0 { first } else { kind };
        push_frame(&mut out, start.wrapping_add(i), now, &[0; 40])?;
    }
    Ok(out)
}

/// Takes a piece part by part: whether a segment may still begin so.
fn feed(reader: &mut SegReader, piece: &[u8]) -> bool {
    let mut rest = piece;
    for _ in 0..piece.len() {
        let (count, part) = reader.take(rest);
        if part == Part::Bad {
            return false;
        }
        rest = rest.get(count..).unwrap_or(&[]);
        if rest.is_empty() {
            break;
        }
    }
    true
}

/// Whether the bytes are a segment by a reader that takes them in pieces of a size; None where memory ran out.
fn is_segment_in(alloc: Global, bytes: &[u8], size: usize) -> Option<bool> {
    let mut reader = SegReader::new(alloc).ok()?;
    for at in (0..bytes.len()).step_by(size.max(1)) {
        let end = bytes.len().min(at.saturating_add(size));
        if !feed(&mut reader, bytes.get(at..end).unwrap_or(&[])) {
            return Some(false);
        }
    }
    Some(reader.whole())
}

/// Whether the bytes are a segment, as one and in pieces; None where the answers differ or memory ran out.
fn judged(alloc: Global, bytes: &[u8]) -> Option<bool> {
    let is = read_segment(bytes).is_some();
    for size in [1, 7, 65536] {
        if is_segment_in(alloc, bytes, size)? != is {
            return None;
        }
    }
    Some(is)
}

/// The same with one byte changed, and cut or lengthened to so many.
fn judged_with(
    alloc: Global,
    mut bytes: Vec<u8>,
    place: usize,
    value: u8,
    len: usize,
) -> Option<bool> {
    bytes.resize(len, 0).ok()?;
    if let Some(byte) = bytes.get_mut(place) {
        *byte = value;
    }
    judged(alloc, bytes.as_slice())
}

#[test]
fn a_changed_byte_is_judged(rt: HostRuntime) {
    // The place of a byte, its new value, the length, and whether that is a segment.
    let rows: [(usize, u8, usize, bool); 51] = [
        (0, 0x41, 4259, true),
        (0, 0x42, 4259, false),
        (1, 0x57, 4259, false),
        (2, 0x4e, 4259, false),
        (3, 0x45, 4259, false),
        (4, 0, 4259, false),
        (4, 2, 4259, false),
        (5, 1, 4259, false),
        (12, 0, 4259, false),
        (12, 2, 4259, false),
        (13, 1, 4259, false),
        (44, 1, 4259, false),
        (45, 255, 4259, false),
        (48, 0, 4259, false),
        (48, 9, 4259, false),
        (48, 11, 4259, false),
        (49, 9, 4259, true),
        (54, 9, 4259, true),
        (55, 1, 4259, false),
        (58, 0, 4259, false),
        (58, 2, 4259, false),
        (59, 8, 4259, true),
        (4154, 8, 4259, true),
        (4155, 1, 4259, false),
        (4162, 0, 4259, false),
        (4162, 2, 4259, false),
        (4163, 0, 4259, false),
        (4163, 2, 4259, false),
        (4163, 10, 4259, false),
        (4167, 39, 4259, false),
        (4167, 41, 4259, false),
        (4175, 1, 4259, false),
        (4176, 1, 4259, true),
        (4207, 1, 4259, true),
        (4215, 1, 4259, false),
        (4215, 3, 4259, false),
        (4216, 3, 4259, true),
        (4216, 1, 4259, false),
        (4221, 64, 4259, false),
        (4221, 63, 4259, true),
        (4229, 11, 4259, true),
        (4237, 2, 4259, false),
        (4237, 4, 4259, false),
        (4242, 15, 4259, false),
        (0, 0x41, 4258, false),
        (0, 0x41, 4260, false),
        (0, 0x41, 4230, true),
        (0, 0x41, 4229, false),
        (0, 0x41, 4208, true),
        (0, 0x41, 4155, false),
        (0, 0x41, 0, false),
    ];
    for (place, value, len, want) in rows {
        let Ok(bytes) = booted(rt.alloc()) else {
            assert!(&rt; false);
            return;
        };
        assert!(&rt;
            judged_with(rt.alloc(), bytes, place, value, len) == Some(want),
            "{value} at {place} of {len}"
        );
    }
}

#[test]
fn entries_are_numbered_and_of_their_kinds(rt: HostRuntime) {
    // The first number, a byte of the hash before it, the first and the later kinds, how many, and whether that is a segment.
    let rows: [(u64, u8, u8, u8, u64, bool); 16] = [
        (1, 0, 1, 2, 1, true),
        (1, 0, 1, 2, 65, true),
        (1, 0, 1, 2, 66, false),
        (1, 0, 1, 1, 2, false),
        (1, 0, 2, 2, 1, false),
        (1, 1, 1, 2, 1, false),
        (2, 9, 2, 2, 1, true),
        (2, 0, 2, 2, 64, true),
        (2, 0, 2, 2, 65, false),
        (2, 0, 1, 2, 1, false),
        (2, 0, 2, 1, 2, false),
        (2, 0, 3, 2, 1, false),
        (0, 0, 2, 2, 1, false),
        ((1 << 62) - 1, 9, 2, 2, 1, true),
        ((1 << 62) - 1, 9, 2, 2, 2, false),
        (1 << 62, 9, 2, 2, 1, false),
    ];
    for (start, before, first, kind, count, want) in rows {
        let Ok(bytes) = entries(rt.alloc(), start, before, first, kind, count) else {
            assert!(&rt; false);
            return;
        };
        let is = judged(rt.alloc(), bytes.as_slice());
        assert!(&rt;
            is == Some(want),
            "{count} of {kind} behind {first} at {start}"
        );
    }
}

/// Whether so many bytes, whose head is so long, are a segment.
fn is_long_segment(alloc: Global, len: usize, head: u32) -> Option<bool> {
    let mut bytes = front(alloc, 1, 0).ok()?;
    bytes.truncate(45);
    bytes.extend_from_slice(&head.to_be_bytes()).ok()?;
    bytes.extend_from_slice(&HEAD).ok()?;
    if len < 53 {
        return None;
    }
    bytes.resize(len - 53, 0).ok()?;
    push_frame(&mut bytes, 1, 1, &[0; 40]).ok()?;
    Some(read_segment(bytes.as_slice()).is_some())
}

#[test]
fn a_segment_has_at_most_two_to_the_26_bytes(rt: HostRuntime) {
    let most = 1 << 26;
    assert!(&rt; is_long_segment(rt.alloc(), most, 67104666) == Some(true));
    assert!(&rt; is_long_segment(rt.alloc(), most + 1, 67104667) == Some(false));
}

/// The front is written as it is read.
#[tactic(auto, unfolding(avm_num::specs::Room::left))]
fn is_front_written(alloc: Global, want: &[u8]) -> Option<bool> {
    let mut room = Room::new(alloc, 59).ok()?;
    put_front(&mut room, 1, &Digest([0; 32]), &HEAD);
    Some(room.bytes() == want)
}

#[test]
fn a_front_is_written(rt: HostRuntime) {
    let Ok(bytes) = front(rt.alloc(), 1, 0) else {
        assert!(&rt; false);
        return;
    };
    let want = bytes.as_slice().get(..59).unwrap_or(&[]);
    assert!(&rt; is_front_written(rt.alloc(), want) == Some(true));
}

/// The parts that end in the bytes when they come in two pieces, each by its letter.
fn parts_of(alloc: Global, bytes: &[u8], cut: usize) -> Option<Vec<u8>> {
    let mut reader = SegReader::new(alloc).ok()?;
    let mut parts = Vec::new(alloc);
    let mut at = 0usize;
    for _ in 0..12 {
        let end = if at < cut { cut } else { bytes.len() };
        let (count, part) = reader.take(bytes.get(at..end).unwrap_or(&[]));
        at = at.saturating_add(count);
        let letter = match part {
            Part::More => continue,
            Part::Head if reader.start() == 1 && reader.head() == HEAD.as_slice() => b'H',
            Part::Page(0) if reader.page()[4095] == 7 => b'P',
            Part::Frame => reader.frame().kind,
            _ => b'?',
        };
        parts.push(letter).ok()?;
    }
    Some(parts)
}

#[test]
fn every_cutting_has_the_same_parts(rt: HostRuntime) {
    let Ok(bytes) = booted(rt.alloc()) else {
        assert!(&rt; false);
        return;
    };
    for cut in 0..4260 {
        let parts = parts_of(rt.alloc(), bytes.as_slice(), cut);
        let is_same = parts.is_some_and(|parts| parts.as_slice() == b"HP\x01\x07\x09".as_slice());
        assert!(&rt; is_same, "cut at {cut}");
    }
}
