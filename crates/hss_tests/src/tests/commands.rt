//! The commands on rolls: their lines, their statuses, and the endorsements that they write.

use crate::tests::files::{files, sink};
use crate::tests::keys::key;
use crate::tests::rolls::{front, joined};
use crate::tests::untold::Untold;
use avm_outside::MemFiles;
use roll_command::{enroll, roll};
use std::alloc::{AllocError, Global};

/// The private key file of a key of one byte, of height 5 and w 8 (docs/FORMATS.md, "Key files").
fn private(alloc: Global, byte: u8) -> Result<Vec<u8>, AllocError> {
    joined(
        alloc,
        &[
            &[65, 86, 77, 75, 1, 0, 0, 0, 5, 0, 0, 0, 4],
            &[byte; 16],
            &[byte; 32],
        ],
    )
}

/// The files of three top keys, the last of them cut, and of two bottom keys, and the last of these cut.
fn keys(alloc: Global) -> Result<MemFiles, AllocError> {
    let top = private(alloc, 1)?;
    let one = key(alloc, 2)?.public();
    files(
        alloc,
        &[
            ("top", &top),
            ("other", &private(alloc, 9)?),
            ("short", front(&top, 60)),
            ("one", &one),
            ("two", &key(alloc, 3)?.public()),
            ("cut", &one[..55]),
        ],
    )
}

/// A `roll` where no public key is named, else an `enroll`: what it printed, and its status.
fn ran(
    alloc: Global,
    made: &mut MemFiles,
    disk: &mut Untold,
    top: &str,
    public: &str,
) -> Result<(Vec<u8>, u8), AllocError> {
    let mut out = sink(alloc)?;
    let status = if public.is_empty() {
        roll(alloc, made, disk, top, &mut out)
    } else {
        enroll(alloc, made, disk, top, public, "end", &mut out)
    };
    Ok((Vec::from_slice(alloc, out.bytes())?, status))
}

#[test]
fn keys_are_enrolled(rt: HostRuntime) -> Result<(), AllocError> {
    let alloc = rt.alloc();
    let mut made = keys(alloc)?;
    let mut disk = Untold::new(alloc, &[], &[])?;
    // the private key and the public one (none: a roll is made), one after another on one disk
    let rows: [(&str, &str, &[u8], u8); 7] = [
        ("top", "one", b"refused nostore\n", 2),
        ("top", "", b"roll made\n", 0),
        ("top", "", b"refused notempty\n", 2),
        ("top", "one", b"enrolled 0\n", 0),
        ("top", "two", b"enrolled 1\n", 0),
        ("other", "two", b"refused key\n", 2),
        ("top", "one", b"enrolled 0\n", 0),
    ];
    let mut first = Vec::new(alloc);
    for (top, public, line, status) in rows {
        let (said, got) = ran(alloc, &mut made, &mut disk, top, public)?;
        assert_eq!(rt; got, status);
        assert!(rt; said.as_slice() == line);
        if first.is_empty() {
            first.extend_from_slice(made.bytes("end").unwrap_or(&[]))?;
        }
    }
    // the endorsement of a key is the same each time
    assert_eq!(rt; first.len(), 1356);
    assert!(rt; made.bytes("end") == Some(first.as_slice()));
    Ok(())
}

#[test]
fn no_leaf_is_left(rt: HostRuntime) -> Result<(), AllocError> {
    let alloc = rt.alloc();
    let mut made = keys(alloc)?;
    let public = key(alloc, 1)?.public();
    let mut full = joined(alloc, &[&[65, 86, 77, 82, 1, 0, 0, 0, 2], &public])?;
    for byte in 0..31 {
        full.extend_from_slice(&[1])?;
        full.extend_from_slice(&[byte; 56])?;
    }
    full.extend_from_slice(&[1])?;
    full.extend_from_slice(&key(alloc, 2)?.public())?;
    let mut disk = Untold::new(alloc, &full, &[])?;
    let (said, status) = ran(alloc, &mut made, &mut disk, "top", "two")?;
    assert_eq!(rt; status, 2);
    assert!(rt; said.as_slice() == b"refused leaves\n".as_slice());
    assert!(rt; made.bytes("end").is_none());
    let (said, status) = ran(alloc, &mut made, &mut disk, "top", "one")?;
    assert_eq!(rt; status, 0);
    assert!(rt; said.as_slice() == b"enrolled 31\n".as_slice());
    Ok(())
}

#[test]
fn files_before_the_disk(rt: HostRuntime) -> Result<(), AllocError> {
    let alloc = rt.alloc();
    let mut made = keys(alloc)?;
    let mut disk = Untold::new(alloc, &[], &[])?;
    let calls = disk.disk.calls();
    let rows: [(&str, &str, &[u8]); 7] = [
        ("none", "", b"refused file --key\n"),
        ("short", "", b"refused file --key\n"),
        ("none", "none", b"refused file --key\n"),
        ("short", "one", b"refused file --key\n"),
        ("one", "cut", b"refused file --key\n"),
        ("top", "none", b"refused file --public\n"),
        ("top", "cut", b"refused file --public\n"),
    ];
    for (top, public, line) in rows {
        let (said, status) = ran(alloc, &mut made, &mut disk, top, public)?;
        assert_eq!(rt; status, 3);
        assert!(rt; said.as_slice() == line);
    }
    assert_eq!(rt; disk.disk.calls(), calls);
    Ok(())
}
