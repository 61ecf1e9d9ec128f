//! The three forms in bytes, written out by hand, and a file that fails.

ghost use Rattle.evid_file.specs.Short.{IsShort};
ghost use Rattle.evid_file.specs.Views.{evidence_view};

use avm_auth::Auth;
use avm_model::Digest;
use avm_num::NoMemory;
use avm_outside::MemFiles;
use evid_file::{Evidence, read_evidence, write_evidence};
use std::alloc::{AllocError, Global};
use std::process::Abort;

const KEY: [u8; 56] = [2; 56];

const ONE: Auth<'static> = Auth {
    seq: 3,
    hash: Digest([5; 32]),
    sig: b"sig",
};

const TWO: Auth<'static> = Auth {
    seq: 258,
    hash: Digest([6; 32]),
    sig: b"",
};

fn double() -> Evidence<'static>
    ensures { IsShort (evidence_view result) }
{
    Evidence::Double {
        key: KEY,
        a: ONE,
        b: TWO,
    }
}

fn fork() -> Evidence<'static>
    ensures { IsShort (evidence_view result) }
{
    Evidence::Fork {
        key: KEY,
        start: 65535,
        before: Digest([4; 32]),
        frames: b"frames",
        top: TWO,
        other: ONE,
    }
}

fn replay() -> Evidence<'static>
    ensures { IsShort (evidence_view result) }
{
    Evidence::Replay {
        key: KEY,
        segment: b"a segment",
        top: ONE,
    }
}

fn joined(alloc: Global, pieces: &[&[u8]]) -> Result<Vec<u8>, AllocError> {
    let mut all = Vec::new(alloc);
    for piece in pieces {
        all.extend_from_slice(piece)?;
    }
    Ok(all)
}

fn same_auth(a: &Auth<'_>, b: &Auth<'_>) -> bool {
    a.seq == b.seq && a.hash == b.hash && a.sig == b.sig
}

/// Whether two have one form and the same parts.
fn same(one: &Evidence<'_>, two: &Evidence<'_>) -> bool {
    match (*one, *two) {
        (
            Evidence::Double { key, a, b },
            Evidence::Double {
                key: other,
                a: c,
                b: d,
            },
        ) => { key == other && same_auth(&a, &c) && same_auth(&b, &d) }
        (
            Evidence::Fork {
                key,
                start,
                before,
                frames,
                top,
                other,
            },
            Evidence::Fork {
                key: k,
                start: s,
                before: h,
                frames: f,
                top: t,
                other: o,
            },
        ) => {
            key == k
                && start == s
                && before == h
                && frames == f
                && same_auth(&top, &t)
                && same_auth(&other, &o)
        }
        (
            Evidence::Replay { key, segment, top },
            Evidence::Replay {
                key: other,
                segment: bytes,
                top: last,
            },
        ) => key == other && segment == bytes && same_auth(&top, &last),
        _ => false,
    }
}

/// Files of which `e` has other bytes, written to; the call of a number fails.
fn written(alloc: Global, evidence: &Evidence<'_>, fails: u64) -> Result<(MemFiles, bool), NoMemory>
    requires { IsShort (evidence_view evidence.now) }
{
    let Ok(fails) = Vec::from_slice(alloc, &[fails]) else {
        return Err(NoMemory);
    };
    let mut files = MemFiles::new(alloc, fails)?;
    files.put("e", b"other bytes")?;
    let done = write_evidence(&mut files, "e", evidence).is_ok();
    Ok((files, done))
}

fn is_left(alloc: Global, evidence: &Evidence<'_>, fails: u64, want: &[u8]) -> bool
    requires { IsShort (evidence_view evidence.now) }
{
    match written(alloc, evidence, fails) {
        Ok((files, done)) => done == (fails == 0) && files.bytes("e") == Some(want),
        Err(_) => false,
    }
}

/// A form that is written and read, with a first call that fails, which makes the file, and with a third, behind the key.
fn form(rt: &impl Abort, alloc: Global, evidence: &Evidence<'_>, pieces: &[&[u8]])
    requires { IsShort (evidence_view evidence.now) }
{
    let Ok(want) = joined(alloc, pieces) else {
        panic!(rt; "no memory")
    };
    let bytes = want.as_slice();
    assert!(rt; is_left(alloc, evidence, 0, bytes));
    assert!(rt; is_left(alloc, evidence, 1, b"other bytes"));
    assert!(rt; is_left(alloc, evidence, 3, bytes.get(..62).unwrap_or(&[])));
    match read_evidence(bytes) {
        Some(read) => assert!(rt; same(&read, evidence)),
        None => panic!(rt; "no evidence"),
    }
}

#[test]
fn each_form(rt: HostRuntime) {
    let one: [&[u8]; 3] = [b"\0\0\0\0\0\0\0\x03", &[5; 32], b"\0\0\0\x03sig"];
    let two: [&[u8]; 3] = [b"\0\0\0\0\0\0\x01\x02", &[6; 32], b"\0\0\0\0"];
    form(
        &rt,
        rt.alloc(),
        &double(),
        &[
            b"AVME\x01",
            &KEY,
            b"\x01",
            one[0],
            one[1],
            one[2],
            two[0],
            two[1],
            two[2],
        ],
    );
    form(
        &rt,
        rt.alloc(),
        &fork(),
        &[
            b"AVME\x01",
            &KEY,
            b"\x02",
            b"\0\0\0\0\0\0\xff\xff",
            &[4; 32],
            b"\0\0\0\x06frames",
            two[0],
            two[1],
            two[2],
            one[0],
            one[1],
            one[2],
        ],
    );
    form(
        &rt,
        rt.alloc(),
        &replay(),
        &[
            b"AVME\x01",
            &KEY,
            b"\x03",
            b"\0\0\0\x09a segment",
            one[0],
            one[1],
            one[2],
        ],
    );
}
