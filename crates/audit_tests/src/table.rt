//! Whole audits under a key of height 5: each verdict, the evidence for it, and what `check` says of it.

ghost use Rattle.std.specs.Prelude.{◌≡◌, IfOk};
ghost use Rattle.avm_num.specs.Room.{left};

mod bank;
mod cases;
mod pieces;

use auditor::{Verdict, audit, check, evidence_of};
use avm_auth::signed_text;
use avm_hash::{Digest, Hasher};
use avm_num::{NoMemory, Room};
use avm_outside::MemFiles;
use bank::{AUTHS, IMAGE, PUBLIC, ROOT};
use cases::{EVIDENCE, FILES, ROWS};
use evid_file::write_evidence;
use lms_tree::LmsKey;
use std::alloc::{AllocError, Global};
use std::process::Abort;

type Row = (u64, u8, u8, &'static [u8], &'static [u8], Verdict);

/// How far apart the bytes of evidence are that are raised in turn.
const STRIDE: usize = 131;

#[tactic(auto, unfolding(avm_num::specs::Room::left))]
fn room(alloc: Global, capacity: usize) -> Result<Room, NoMemory>
    ensures { IfOk result (λ r. left r ≡ capacity) }
{
    Room::new(alloc, capacity)
}

/// An authenticator by its name, signed at a leaf.
fn auth(
    alloc: Global,
    key: &LmsKey,
    leaf: u32,
    name: [u8; 2],
    hash: [u8; 32],
) -> Result<Vec<u8>, AllocError> {
    let seq = u64::from(name[1].wrapping_sub(b'0'));
    let mut out = Vec::new(alloc);
    let Ok(mut sig) = room(alloc, key.signature_len()) else {
        return Err(AllocError);
    };
    if leaf < key.leaves() {
        key.sign(leaf, &signed_text(seq, &Digest(hash)), &mut sig);
    }
    out.extend_from_slice(&seq.to_be_bytes())?;
    out.extend_from_slice(&hash)?;
    out.extend_from_slice(&(1292u32).to_be_bytes())?;
    out.extend_from_slice(sig.bytes())?;
    if name[0] == b'!' {
        if let Some(last) = out.last_mut() {
            *last ^= 1;
        }
    }
    Ok(out)
}

/// All authenticators, with these hashes.
fn signed(alloc: Global, hashes: &[[u8; 32]]) -> Result<Vec<Vec<u8>>, AllocError> {
    let id = [0, 1, 2, 3, 4, 5, 6, 7, 8, 9, 10, 11, 12, 13, 14, 15];
    let Ok(key) = LmsKey::make(alloc, 5, 4, id, Digest([0x11; 32])) else {
        return Err(AllocError);
    };
    let mut all = Vec::new(alloc);
    let mut leaf = 0u32;
    for (name, _) in AUTHS {
        if let Some(hash) = hashes.get(leaf as usize) {
            all.push(auth(alloc, &key, leaf, *name, *hash)?)?;
        }
        leaf = leaf.wrapping_add(1);
    }
    Ok(all)
}

/// The hashes of the bank.
fn banked(alloc: Global) -> Result<Vec<[u8; 32]>, AllocError> {
    let mut hashes = Vec::new(alloc);
    for (_, hash) in AUTHS {
        hashes.push(hash)?;
    }
    Ok(hashes)
}

/// The authenticators of these names; another name is a byte.
fn auth_file(alloc: Global, all: &[Vec<u8>], names: &[u8]) -> Result<Vec<u8>, AllocError> {
    let mut out = Vec::new(alloc);
    for name in names.chunks(2) {
        match AUTHS.iter().position(|one| one.0.as_slice() == name) {
            Some(i) => match all.get(i) {
                Some(bytes) => out.extend_from_slice(bytes.as_slice())?,
                None => return Err(AllocError),
            },
            None => out.push(0)?,
        }
    }
    Ok(out)
}

/// What stands before the frames: a machine of so many pages in its first state, with this last byte.
fn push_front(
    out: &mut Vec<u8>,
    start: u64,
    own: u8,
    pages: u8,
    tail: u8,
) -> Result<(), AllocError> {
    let before = if start == 1 { 0 } else { 9 };
    out.extend_from_slice(b"AVMS\x01")?;
    out.extend_from_slice(&start.to_be_bytes())?;
    out.extend_from_slice(&[before; 32])?;
    out.extend_from_slice(&[0, 0, 4, 0xa8, 1, own, 0, 0, 4, 0, 0, 0, 0, pages, 0])?;
    out.extend_from_slice(&[0; 124])?;
    out.extend_from_slice(&[0x80, 0, 0, 0])?;
    out.extend_from_slice(&[0; 1053])?;
    out.extend_from_slice(&IMAGE)?;
    for _ in 1..pages {
        out.extend_from_slice(&[0; 4096])?;
    }
    out.extend_from_slice(&[0; 4071])?;
    out.push(tail)?;
    Ok(())
}

fn push_frame(out: &mut Vec<u8>, seq: u64, kind: u8, content: &[&[u8]]) -> Result<(), AllocError> {
    let mut len: u64 = 0;
    for part in content {
        len = len.saturating_add(part.len() as u64);
    }
    out.extend_from_slice(&seq.to_be_bytes())?;
    out.push(kind)?;
    let [_, _, _, _, a, b, c, d] = len.to_be_bytes();
    out.extend_from_slice(&[a, b, c, d])?;
    for part in content {
        out.extend_from_slice(part)?;
    }
    Ok(())
}

/// The entry of a letter: BOOT, BOOT with another root, SNAP, OUT, OUT a step early, and HALT; or a byte more or less.
fn push_letter(out: &mut Vec<u8>, seq: u64, letter: u8, root: &[u8; 32]) -> Result<(), AllocError> {
    match letter {
        b'B' => push_frame(out, seq, 1, &[&[0; 8], root]),
        b'Z' => push_frame(out, seq, 1, &[&[0; 40]]),
        b'S' => push_frame(out, seq, 2, &[&[0; 8], root]),
        b'o' => push_frame(out, seq, 7, &[b"\0\0\0\0\0\0\0\x05H\n"]),
        b'e' => push_frame(out, seq, 7, &[b"\0\0\0\0\0\0\0\x04H\n"]),
        b'h' => push_frame(out, seq, 9, &[b"\0\0\0\0\0\0\0\x06\0\0\0\x01\0\0\0\0"]),
        b'-' => {
            let _last = out.pop();
            Ok(())
        }
        _ => Ok(out.push(0)?),
    }
}

/// The segment of a row, of a machine of so many pages, whose state's root this is.
fn segment_file(
    alloc: Global,
    row: &Row,
    pages: u8,
    root: &[u8; 32],
) -> Result<Vec<u8>, AllocError> {
    let mut out = Vec::new(alloc);
    let mut seq = row.0;
    push_front(&mut out, seq, row.1, pages, row.2)?;
    for letter in row.3 {
        push_letter(&mut out, seq, *letter, root)?;
        seq = seq.wrapping_add(1);
    }
    Ok(out)
}

/// The verdict, and a file `e` with the evidence where there is some.
fn judged(alloc: Global, segment: &[u8], auths: &[u8]) -> Result<(Verdict, MemFiles), NoMemory> {
    let mut files = MemFiles::new(alloc, Vec::new(alloc))?;
    let verdict = audit(alloc, &PUBLIC, segment, auths)?;
    if let Some(evidence) = evidence_of(&PUBLIC, segment, auths, &verdict) {
        if write_evidence(&mut files, "e", &evidence).is_err() {
            return Err(NoMemory);
        }
    }
    Ok((verdict, files))
}

fn has_evidence(verdict: &Verdict) -> bool {
    matches!(
        verdict,
        Verdict::Double(..) | Verdict::Fork(..) | Verdict::Replay(_)
    )
}

/// `check` with the key, with another key, with a byte more, and with bytes raised in turn.
fn check_all(rt: &impl Abort, alloc: Global, evidence: &[u8]) -> Result<(), AllocError> {
    let mut other = PUBLIC;
    other[55] ^= 1;
    assert!(rt; matches!(check(alloc, &PUBLIC, evidence), Ok(true)));
    assert!(rt; matches!(check(alloc, &other, evidence), Ok(false)));
    let mut changed = Vec::from_slice(alloc, evidence)?;
    changed.push(0)?;
    assert!(rt; matches!(check(alloc, &PUBLIC, changed.as_slice()), Ok(false)));
    for at in (0..evidence.len()).step_by(STRIDE) {
        let mut changed = Vec::from_slice(alloc, evidence)?;
        if let Some(byte) = changed.get_mut(at) {
            *byte = byte.wrapping_add(1);
        }
        let is_refused = matches!(check(alloc, &PUBLIC, changed.as_slice()), Ok(false));
        assert!(rt; is_refused, "byte {at}");
    }
    Ok(())
}

#[test]
fn each_verdict(rt: HostRuntime) -> Result<(), AllocError> {
    let alloc = rt.alloc();
    let all = signed(alloc, &banked(alloc)?)?;
    let mut inputs = Hasher::new();
    let mut outputs = Hasher::new();
    for row in &ROWS {
        let segment = segment_file(alloc, row, 1, &ROOT)?;
        let auths = auth_file(alloc, all.as_slice(), row.4)?;
        inputs.update(segment.as_slice());
        inputs.update(auths.as_slice());
        let Ok((verdict, files)) = judged(alloc, segment.as_slice(), auths.as_slice()) else {
            panic!(rt; "no memory")
        };
        assert_eq!(rt; verdict, row.5);
        let evidence = files.bytes("e");
        assert_eq!(rt; evidence.is_some(), has_evidence(&verdict));
        if let Some(evidence) = evidence {
            outputs.update(evidence);
            check_all(&rt, alloc, evidence)?;
        }
    }
    assert!(rt; inputs.finish().0 == FILES);
    assert!(rt; outputs.finish().0 == EVIDENCE);
    Ok(())
}
