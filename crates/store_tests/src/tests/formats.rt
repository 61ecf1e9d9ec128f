//! What is refused, and what a call that fails leaves.

use crate::tests::formatting::{ALL, Fails, Inputs, KEY, NONE, disk, formats_as};
use std::alloc::AllocError;

/// An ELF file with bit 0 of e_flags set, up to its flags (ELF-32 Object File Format, "ELF Header"; RISC-V ELF psABI).
const COMPRESSED: [u8; 52] = [
    0x7f, 0x45, 0x4c, 0x46, 1, 1, 1, 0, 0, 0, 0, 0, 0, 0, 0, 0, 2, 0, 0xf3, 0, 1, 0, 0, 0, 0, 0, 0,
    0x80, 52, 0, 0, 0, 0, 0, 0, 0, 1, 0, 0, 0, 52, 0, 32, 0, 0, 0, 0, 0, 0, 0, 0, 0,
];

#[test]
fn files_are_judged_in_order(rt: HostRuntime) -> Result<(), AllocError> {
    let alloc = rt.alloc();
    let rows: [(Inputs<'_>, &str); 10] = [
        (
            Inputs {
                key: None,
                config: None,
                image: None,
            },
            "refused file --key\n",
        ),
        (
            Inputs {
                key: Some(&KEY[..60]),
                config: None,
                ..ALL
            },
            "refused file --key\n",
        ),
        (
            Inputs {
                config: None,
                image: None,
                ..ALL
            },
            "refused file --config\n",
        ),
        (
            Inputs {
                config: Some(b"{\"own\":0,\"pages\":3,\"snap\":1024,\"peers\":[]}"),
                ..ALL
            },
            "refused file --config\n",
        ),
        (
            Inputs {
                config: Some(b"{\"own\":16,\"pages\":1,\"snap\":1024,\"peers\":[]}"),
                image: None,
                ..ALL
            },
            "refused file --config\n",
        ),
        (
            Inputs {
                config: Some(b"{\"own\":0,\"pages\":1,\"snap\":1024,\"peers\":[],\"x\":1}"),
                ..ALL
            },
            "refused file --config\n",
        ),
        (Inputs { image: None, ..ALL }, "refused file --image\n"),
        (
            Inputs {
                image: Some(b""),
                ..ALL
            },
            "refused file --image\n",
        ),
        (
            Inputs {
                image: Some(&[0; 4097]),
                ..ALL
            },
            "refused file --image\n",
        ),
        (
            Inputs {
                image: Some(&COMPRESSED),
                ..ALL
            },
            "refused file --image\n",
        ),
    ];
    for (inputs, line) in rows {
        let Some(mut store) = disk(alloc, 0) else {
            assert!(rt; false);
            return Ok(());
        };
        assert!(rt; formats_as(alloc, inputs, &mut store, NONE, line, 3) == Some(true));
        assert_eq!(rt; store.calls(), 0);
    }
    Ok(())
}

#[test]
fn a_store_is_made_once(rt: HostRuntime) -> Result<(), AllocError> {
    let alloc = rt.alloc();
    let Some(mut store) = disk(alloc, 0) else {
        assert!(rt; false);
        return Ok(());
    };
    assert!(rt; formats_as(alloc, ALL, &mut store, NONE, "store made\n", 0) == Some(true));
    let calls = store.calls();
    assert!(rt; formats_as(alloc, ALL, &mut store, NONE, "refused notempty\n", 2) == Some(true));
    assert_eq!(rt; store.calls().checked_sub(calls), Some(1));
    Ok(())
}

#[test]
fn each_call_may_fail(rt: HostRuntime) -> Result<(), AllocError> {
    let alloc = rt.alloc();
    // a length, three writes with a sync, and a record's two writes with their syncs
    for fail in 1..=10 {
        let Some(mut store) = disk(alloc, fail) else {
            assert!(rt; false);
            return Ok(());
        };
        let (line, status) = if fail <= 9 {
            ("fault disk\n", 4)
        } else {
            ("store made\n", 0)
        };
        assert!(rt; formats_as(alloc, ALL, &mut store, NONE, line, status) == Some(true));
    }
    // each file is read in a piece, and its end in another
    for fail in 1..=6 {
        let Some(mut store) = disk(alloc, 0) else {
            assert!(rt; false);
            return Ok(());
        };
        let fails = Fails {
            files: fail,
            ..NONE
        };
        assert!(rt; formats_as(alloc, ALL, &mut store, fails, "fault files\n", 4) == Some(true));
        assert_eq!(rt; store.calls(), 0);
    }
    let Some(mut store) = disk(alloc, 0) else {
        assert!(rt; false);
        return Ok(());
    };
    let fails = Fails { out: 1, ..NONE };
    assert!(rt; formats_as(alloc, ALL, &mut store, fails, "", 4) == Some(true));
    Ok(())
}
