//! An authenticator in bytes, and each field at its bounds.

use avm_auth::{put_auth, read_auths, signed_text};
use avm_hash::Digest;
use avm_num::Room;
use std::alloc::{AllocError, Global};
use std::test::Fail;

/// Entry 3 with a signature of three bytes.
const AUTH: [u8; 47] = [
    0x00, 0x00, 0x00, 0x00, 0x00, 0x00, 0x00, 0x03, 0xa5, 0x80, 0x3d, 0xaa, 0x58, 0xf2, 0x91, 0x68,
    0xbf, 0x9a, 0xdb, 0x4e, 0xc5, 0x76, 0x18, 0x46, 0x94, 0x0c, 0xa1, 0x03, 0x3d, 0xde, 0xd7, 0x96,
    0x4d, 0x7b, 0xf7, 0x51, 0xbd, 0x52, 0x1c, 0xcb, 0x00, 0x00, 0x00, 0x03, 0xa1, 0xa2, 0xa3,
];

/// What is signed for it.
const TEXT: [u8; 44] = [
    0x41, 0x56, 0x4d, 0x41, 0x00, 0x00, 0x00, 0x00, 0x00, 0x00, 0x00, 0x03, 0xa5, 0x80, 0x3d, 0xaa,
    0x58, 0xf2, 0x91, 0x68, 0xbf, 0x9a, 0xdb, 0x4e, 0xc5, 0x76, 0x18, 0x46, 0x94, 0x0c, 0xa1, 0x03,
    0x3d, 0xde, 0xd7, 0x96, 0x4d, 0x7b, 0xf7, 0x51, 0xbd, 0x52, 0x1c, 0xcb,
];

const TOP: u64 = (1 << 62) - 1;

/// Number, bytes of signature, bytes behind, and whether it is a file of authenticators.
const FILES: [(u64, usize, usize, bool); 10] = [
    (0, 0, 0, false),
    (1, 0, 0, true),
    (TOP, 0, 0, true),
    (TOP + 1, 0, 0, false),
    (u64::MAX, 0, 0, false),
    (7, 1, 0, true),
    (7, 9324, 0, true),
    (7, 9325, 0, false),
    (7, 1292, 1, false),
    (7, 0, 43, false),
];

fn file(alloc: Global, seq: u64, sig: usize, behind: usize) -> Result<Vec<u8>, AllocError> {
    let sig = vec![in alloc; 5u8; sig]?;
    let mut all = Vec::new(alloc);
    all.extend_from_slice(&seq.to_be_bytes())?;
    all.extend_from_slice(&[9; 32])?;
    all.extend_from_slice(&u32::try_from(sig.len()).unwrap_or(0).to_be_bytes())?;
    all.extend_from_slice(sig.as_slice())?;
    all.extend_from_slice(vec![in alloc; 0u8; behind]?.as_slice())?;
    Ok(all)
}

#[test]
#[tactic(auto, unfolding(avm_num::specs::Room::left))]
fn one_in_bytes(rt: HostRuntime) -> Result<(), Fail> {
    let alloc = rt.alloc();
    let mut all = read_auths(&AUTH).expect(&rt, "a file");
    let auth = all.next().expect(&rt, "an authenticator");
    assert_eq!(rt; (auth.seq, auth.sig), (3, [0xa1, 0xa2, 0xa3].as_slice()));
    assert!(rt; all.next().is_none());
    assert_eq!(rt; signed_text(3, &auth.hash), TEXT);
    let mut room = Room::new(alloc, 100).map_err(|_| "room")?;
    put_auth(&mut room, 3, &auth.hash, &[0xa1, 0xa2, 0xa3]);
    assert_eq!(rt; room.bytes(), AUTH.as_slice());
    put_auth(&mut room, 3, &Digest([0; 32]), &[]);
    let mut both = read_auths(room.bytes()).expect(&rt, "two");
    let mut again = both.again();
    assert!(rt; both.next().is_some() && both.next().is_some() && both.next().is_none());
    assert!(rt; again.next().is_some());
    for short in 1..AUTH.len() {
        assert!(rt; read_auths(&AUTH[..short]).is_none(), "cut at {short}");
    }
    assert!(rt; read_auths(&[]).is_some());
    Ok(())
}

#[test]
fn each_bound(rt: HostRuntime) -> Result<(), Fail> {
    for (seq, sig, behind, is) in FILES {
        let bytes = file(rt.alloc(), seq, sig, behind)?;
        assert_eq!(rt;
            read_auths(bytes.as_slice()).is_some(),
            is,
            "{seq} {sig} {behind}"
        );
    }
    Ok(())
}
