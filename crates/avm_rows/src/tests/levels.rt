//! A store's key under a top key: enrolled, its seal widened and narrowed, and a segment audited with what comes back.

use super::keys::{authenticator, key};
use super::rows::from_snapshot;
use super::running::{Ran, run, run_on};
use super::signed::top;
use avm_outside::MemDisk;
use std::alloc::Global;

/// The private key file of the top key: height 5, w 8 (docs/FORMATS.md, "Key files").
const TOP: &[u8] =
    b"AVMK\x01\x00\x00\x00\x05\x00\x00\x00\x04\x07\x07\x07\x07\x07\x07\x07\x07\x07\x07\x07\x07\x07\x07\x07\x07\x09\x09\x09\x09\x09\x09\x09\x09\x09\x09\x09\x09\x09\x09\x09\x09\x09\x09\x09\x09\x09\x09\x09\x09\x09\x09\x09\x09\x09\x09\x09\x09";

/// The bytes of a file that a run left.
fn left<'a>(ran: &'a Ran, name: &str) -> &'a [u8] {
    ran.files.bytes(name).unwrap_or(&[])
}

/// A roll of the top key with this public key alone: the endorsement, where both commands print what they ought to.
fn endorsement(alloc: Global, public: &[u8]) -> Option<Vec<u8>> {
    let mut disk = MemDisk::new(alloc, Vec::new(alloc)).ok()?;
    let files: [(&str, &[u8]); 2] = [("t", TOP), ("p", public)];
    let roll = run_on(
        alloc,
        &["roll", "--store", "r", "--key", "t"],
        &files,
        &mut disk,
    )?;
    let words = [
        "enroll",
        "--store",
        "r",
        "--key",
        "t",
        "--public",
        "p",
        "--endorse",
        "e",
    ];
    let enroll = run_on(alloc, &words, &files, &mut disk)?;
    if !roll.ended("roll made\n", 0) || !enroll.ended("enrolled 0\n", 0) {
        return None;
    }
    Vec::from_slice(alloc, left(&enroll, "e")).ok()
}

/// The public key of the top key.
fn top_public(alloc: Global) -> Option<Vec<u8>> {
    let seed = "0909090909090909090909090909090909090909090909090909090909090909";
    let words = [
        "keygen",
        "--height",
        "5",
        "--w",
        "8",
        "--id",
        "07070707070707070707070707070707",
        "--seed",
        seed,
        "--key",
        "t",
        "--public",
        "p",
    ];
    let ran = run(alloc, &words, &[])?;
    if left(&ran, "t") != TOP {
        return None;
    }
    Vec::from_slice(alloc, left(&ran, "p")).ok()
}

#[test]
fn a_seal_is_widened_and_narrowed(rt: HostRuntime) {
    let alloc = rt.alloc();
    let bottom = key(alloc, 0x11).expect(&rt, "memory");
    let segment = from_snapshot(alloc, 0, 0).expect(&rt, "memory");
    let hash = top(&segment).expect(&rt, "a segment");
    let seal = authenticator(alloc, &bottom, 0, 4, &hash).expect(&rt, "memory");
    let endorse = endorsement(alloc, &bottom.public()).expect(&rt, "an endorsement");
    let widen = ["widen", "--endorse", "e", "--auths", "a", "--out", "o"];
    let wide = run(alloc, &widen, &[("e", &endorse), ("a", &seal)]).expect(&rt, "memory");
    assert!(rt; wide.ended("widened 1\n", 0));
    // a number, a hash, a length, and a signature of 2644 bytes
    assert_eq!(rt; left(&wide, "o").len(), 44 + 2644);
    let public = top_public(alloc).expect(&rt, "a key");
    let narrow = [
        "narrow", "--key", "k", "--auths", "a", "--public", "p", "--out", "o",
    ];
    let given: [(&str, &[u8]); 2] = [("k", &public), ("a", left(&wide, "o"))];
    let back = run(alloc, &narrow, &given).expect(&rt, "memory");
    assert!(rt; back.ended("narrowed 1\n", 0));
    let audit = [
        "audit",
        "--segment",
        "s",
        "--key",
        "k",
        "--auths",
        "a",
        "--evidence",
        "e",
    ];
    let given: [(&str, &[u8]); 3] = [
        ("s", &segment),
        ("k", left(&back, "p")),
        ("a", left(&back, "o")),
    ];
    let ran = run(alloc, &audit, &given).expect(&rt, "memory");
    assert!(rt; ran.ended("accepted 4 to 4 covered 4\n", 0));
}
