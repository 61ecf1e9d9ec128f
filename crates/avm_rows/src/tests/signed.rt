//! Audits with authenticators under the auditor's key, and the evidence that they write.

use super::building::{Entry, alone};
use super::entries::{CALL, HALT, OUT};
use super::keys::{authenticator, key};
use super::running::{Ran, cut, run, run_failing};
use avm_hash::Digest;
use lms_tree::LmsKey;
use log_chain::chain;
use log_entry::Frames;
use seg_file::read_segment;
use std::alloc::Global;
use test_guests::PRINTS;

const AUDIT: &[&str] = &[
    "audit",
    "--segment",
    "s",
    "--key",
    "k",
    "--auths",
    "a",
    "--evidence",
    "e",
];

const CHECK: &[&str] = &["check", "--key", "k", "--evidence", "e"];

/// As the guest makes it, and with the line one step early.
const GOOD: &[Entry<'static>] = &[(OUT, 5, b"H\n"), (HALT, 6, CALL)];

const EARLY: &[Entry<'static>] = &[(OUT, 4, b"H\n"), (HALT, 6, CALL)];

/// A segment, an authenticator of the last entry of a log, and the public key.
#[derive(Drop)]
pub struct Case {
    pub segment: Vec<u8>,
    pub auths: Vec<u8>,
    pub public: [u8; 56],
}

/// The hash of the last entry.
pub fn top(segment: &[u8]) -> Option<Digest> {
    let segment = read_segment(segment)?;
    Some(chain(&segment.before, Frames::new(segment.frames)))
}

/// The segment of these entries, with the authenticator of entry 3 in the log of those.
fn case_of(
    alloc: Global,
    key: &LmsKey,
    entries: &[Entry<'_>],
    committed: &[Entry<'_>],
) -> Option<Case> {
    let hash = top(&alone(alloc, PRINTS, committed)?)?;
    Some(Case {
        segment: alone(alloc, PRINTS, entries)?,
        auths: authenticator(alloc, key, 0, 3, &hash)?,
        public: key.public(),
    })
}

pub fn audit(alloc: Global, case: &Case, file_fail: u64, print_fail: u64) -> Option<Ran> {
    let given: [(&str, &[u8]); 3] = [
        ("s", &case.segment),
        ("k", &case.public),
        ("a", &case.auths),
    ];
    run_failing(alloc, AUDIT, &given, file_fail, print_fail)
}

/// Whether the check of this evidence under this key prints this line and ends with this status.
pub fn checks_as(alloc: Global, key: &[u8], evidence: &[u8], line: &str, status: u8) -> bool {
    match run(alloc, CHECK, &[("k", key), ("e", evidence)]) {
        Some(ran) => ran.ended(line, status),
        None => false,
    }
}

/// The log with the early line, and the authenticator of its last entry.
fn early(alloc: Global) -> Option<Case> {
    case_of(alloc, &key(alloc, 0x11)?, EARLY, EARLY)
}

/// The evidence that it gives, and the key.
fn evidence(alloc: Global) -> Option<(Vec<u8>, [u8; 56])> {
    let case = early(alloc)?;
    let ran = audit(alloc, &case, 0, 0)?;
    if !ran.ended("fault replay 2\n", 1) {
        return None;
    }
    Some((
        Vec::from_slice(alloc, ran.files.bytes("e")?).ok()?,
        case.public,
    ))
}

#[test]
fn one_authenticator(rt: HostRuntime) {
    let rows: [(&[Entry<'_>], &[Entry<'_>], &str, u8); 4] = [
        (GOOD, GOOD, "accepted 1 to 3 covered 3\n", 0),
        (&[], GOOD, "refused unmatched 0\n", 2),
        (EARLY, EARLY, "fault replay 2\n", 1),
        (EARLY, GOOD, "refused uncovered 2\n", 2),
    ];
    let key = key(rt.alloc(), 0x11).expect(&rt, "memory");
    for (entries, committed, line, status) in rows {
        let case = case_of(rt.alloc(), &key, entries, committed).expect(&rt, "memory");
        let ran = audit(rt.alloc(), &case, 0, 0).expect(&rt, "memory");
        assert!(rt; ran.ended(line, status), "{line}");
        assert_eq!(rt; ran.files.bytes("e").is_some(), status == 1);
    }
}

#[test]
fn evidence_is_checked(rt: HostRuntime) {
    let (mut bytes, public) = evidence(rt.alloc()).expect(&rt, "memory");
    let other = key(rt.alloc(), 0x12).expect(&rt, "memory").public();
    assert!(rt; checks_as(rt.alloc(), &public, &bytes, "evidence stands\n", 0));
    assert!(rt; checks_as(rt.alloc(), &other, &bytes, "refused evidence\n", 2));
    assert!(rt;
        checks_as(
            rt.alloc(),
            cut(&public, 55),
            &bytes,
            "refused file --key\n",
            3
        )
    );
    for at in 0..bytes.len() {
        if at % 61 == 0 {
            raise(&mut bytes, at, 1);
            assert!(rt;
                checks_as(rt.alloc(), &public, &bytes, "refused evidence\n", 2),
                "at {at}"
            );
            raise(&mut bytes, at, 255);
        }
    }
    bytes.push(0).expect(&rt, "memory");
    assert!(rt; checks_as(rt.alloc(), &public, &bytes, "refused evidence\n", 2));
}

fn raise(bytes: &mut [u8], at: usize, by: u8) {
    if let Some(byte) = bytes.get_mut(at) {
        *byte = byte.wrapping_add(by);
    }
}

/// Each call on the files fails in a run of its own, up to the first number that no call has.
#[test]
fn each_call_on_the_files_fails_in_turn(rt: HostRuntime) {
    let case = early(rt.alloc()).expect(&rt, "memory");
    let mut calls = 0u64;
    for fail in 1..40u64 {
        let ran = audit(rt.alloc(), &case, fail, 0).expect(&rt, "memory");
        if ran.status == 1 {
            break;
        }
        assert!(rt; ran.ended("fault files\n", 4), "call {fail}");
        calls = fail;
    }
    assert!(rt; calls > 6 && calls < 39, "{calls} calls");
}

#[test]
fn a_print_fails(rt: HostRuntime) {
    let case = early(rt.alloc()).expect(&rt, "memory");
    let ran = audit(rt.alloc(), &case, 0, 1).expect(&rt, "memory");
    assert!(rt; ran.ended("", 4));
    let ran = audit(rt.alloc(), &case, 1, 1).expect(&rt, "memory");
    assert!(rt; ran.ended("", 4));
}
