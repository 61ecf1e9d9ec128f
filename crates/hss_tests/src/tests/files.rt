//! Endorsements, and authenticators that are widened and narrowed.

use crate::tests::keys::{auths, endorsement, granted, key};
use crate::tests::rolls::{front, joined};
use avm_num::NoMemory;
use avm_outside::{MemFiles, MemSink};
use hss_command::{narrow, widen};
use std::alloc::{AllocError, Global};

/// Files in memory.
pub fn files(alloc: Global, files: &[(&str, &[u8])]) -> Result<MemFiles, AllocError> {
    let Ok(mut made) = MemFiles::new(alloc, Vec::new(alloc)) else {
        return Err(AllocError);
    };
    for (name, bytes) in files {
        let Ok(()) = made.put(name, bytes) else {
            return Err(AllocError);
        };
    }
    Ok(made)
}

pub fn sink(alloc: Global) -> Result<MemSink, AllocError> {
    match MemSink::new(alloc, Vec::new(alloc)) {
        Ok(sink) => Ok(sink),
        Err(NoMemory) => Err(AllocError),
    }
}

/// The status of a `widen` and what it printed.
fn widened(alloc: Global, made: &mut MemFiles) -> Result<(u8, Vec<u8>), AllocError> {
    let mut out = sink(alloc)?;
    let status = widen(alloc, made, "endorse", "auths", "wide", &mut out);
    Ok((status, Vec::from_slice(alloc, out.bytes())?))
}

/// The status of a `narrow` and what it printed.
fn narrowed(alloc: Global, made: &mut MemFiles) -> Result<(u8, Vec<u8>), AllocError> {
    let mut out = sink(alloc)?;
    let status = narrow(alloc, made, "key", "wide", "public", "back", &mut out);
    Ok((status, Vec::from_slice(alloc, out.bytes())?))
}

#[test]
fn widened_and_narrowed_again(rt: HostRuntime) -> Result<(), AllocError> {
    let alloc = rt.alloc();
    let top = key(alloc, 1)?;
    let bottom = key(alloc, 2)?;
    let grant = granted(alloc, &bottom)?;
    assert_eq!(rt; grant.leaf(), 1);
    let endorse = endorsement(alloc, &top, &grant)?;
    assert_eq!(rt; endorse.len(), 4 + 4 + 1292 + 56);
    assert!(rt; endorse[..8] == [65, 86, 77, 78, 0, 0, 5, 12]);
    assert!(rt; endorse[8..12] == [0, 0, 0, 1]);
    let list = auths(alloc, &bottom)?;
    assert_eq!(rt; list.len(), 2 * 1336);
    let public = top.public();
    let mut made = files(
        alloc,
        &[("endorse", &endorse), ("auths", &list), ("key", &public)],
    )?;
    let (status, line) = widened(alloc, &mut made)?;
    assert_eq!(rt; status, 0);
    assert!(rt; line.as_slice() == b"widened 2\n".as_slice());
    // the signature has 2644 bytes
    let wide = Vec::from_slice(alloc, made.bytes("wide").unwrap_or(&[]))?;
    assert_eq!(rt; wide.len(), 2 * 2688);
    assert!(rt; wide[40..48] == [0, 0, 10, 84, 0, 0, 0, 1]);
    let (status, line) = narrowed(alloc, &mut made)?;
    assert_eq!(rt; status, 0);
    assert!(rt; line.as_slice() == b"narrowed 2\n".as_slice());
    assert!(rt; made.bytes("back") == Some(list.as_slice()));
    assert!(rt; made.bytes("public") == Some(bottom.public().as_slice()));
    Ok(())
}

#[test]
fn files_that_are_refused(rt: HostRuntime) -> Result<(), AllocError> {
    let alloc = rt.alloc();
    let top = key(alloc, 1)?;
    let bottom = key(alloc, 2)?;
    let endorse = endorsement(alloc, &top, &granted(alloc, &bottom)?)?;
    let list = auths(alloc, &bottom)?;
    let good: [&[u8]; 2] = [&endorse, &list];
    let short = front(&endorse, 1355);
    let long = joined(alloc, &[&endorse, &[0]])?;
    let cut = front(&list, 2671);
    let cases: [([&[u8]; 2], u8, &[u8]); 5] = [
        (good, 0, b"widened 2\n"),
        ([short, &list], 3, b"refused file --endorse\n"),
        ([&long, &list], 3, b"refused file --endorse\n"),
        ([&endorse, cut], 3, b"refused file --auths\n"),
        ([&endorse, &[]], 0, b"widened 0\n"),
    ];
    for (inputs, status, line) in cases {
        let mut made = files(alloc, &[("endorse", inputs[0]), ("auths", inputs[1])])?;
        let (got, said) = widened(alloc, &mut made)?;
        assert_eq!(rt; got, status);
        assert!(rt; said.as_slice() == line);
        assert_eq!(rt; made.bytes("wide").is_some(), status == 0);
    }
    let mut made = files(alloc, &[("auths", &list)])?;
    assert_eq!(rt; widened(alloc, &mut made)?.0, 3);
    Ok(())
}

#[test]
fn authenticators_that_are_refused(rt: HostRuntime) -> Result<(), AllocError> {
    let alloc = rt.alloc();
    let top = key(alloc, 1)?;
    let one = key(alloc, 2)?;
    let two = key(alloc, 3)?;
    let mut wide = Vec::new(alloc);
    for bottom in [&one, &two] {
        let endorse = endorsement(alloc, &top, &granted(alloc, bottom)?)?;
        let mut made = files(
            alloc,
            &[("endorse", &endorse), ("auths", &auths(alloc, bottom)?)],
        )?;
        assert_eq!(rt; widened(alloc, &mut made)?.0, 0);
        wide.extend_from_slice(made.bytes("wide").unwrap_or(&[]))?;
    }
    assert_eq!(rt; wide.len(), 4 * 2688);
    let public = top.public();
    let other = one.public();
    let mut changed = Vec::from_slice(alloc, front(&wide, 5376))?;
    assert!(rt; changed.len() == 5376);
    changed[5375] ^= 1;
    let cases: [(&[u8], &[u8], u8, &[u8]); 7] = [
        (&public, front(&wide, 2688), 0, b"narrowed 1\n"),
        (&public, &wide, 2, b"refused mixed 2\n"),
        (&public, &changed, 2, b"refused badauth 1\n"),
        (&other, &wide, 2, b"refused badauth 0\n"),
        (&public, front(&wide, 2687), 2, b"refused malformed\n"),
        (&public, &[], 2, b"refused malformed\n"),
        (&public[..55], &wide, 3, b"refused file --key\n"),
    ];
    for (key, list, status, line) in cases {
        let mut made = files(alloc, &[("key", key), ("wide", list)])?;
        let (got, said) = narrowed(alloc, &mut made)?;
        assert_eq!(rt; got, status);
        assert!(rt; said.as_slice() == line);
        assert_eq!(rt; made.bytes("back").is_some(), status == 0);
    }
    Ok(())
}
