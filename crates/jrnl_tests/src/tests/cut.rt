//! A crash at each of the calls of the last of three commits.

use crate::tests::saving::save;
use crate::tests::shown::items;
use crate::tests::texts::{LINE, ROOT, SEAL, SEND, SNAP, batch, store};
use crate::tests::untold::Untold;
use jrnl_store::Journal;
use std::alloc::{AllocError, Global};

/// How many of the commit's calls are made, the byte in each free place, and how many items the journal has then.
const CUTS: [(usize, u8, usize); 15] = [
    (0, 0x00, 3),
    (0, 0x01, 3),
    (0, 0xff, 3),
    (1, 0x00, 3),
    (1, 0x01, 3),
    (1, 0xff, 3),
    (2, 0x00, 3),
    (2, 0x01, 3),
    (2, 0xff, 3),
    (3, 0x00, 3),
    (3, 0x01, 5),
    (3, 0xff, 3),
    (4, 0x00, 5),
    (4, 0x01, 5),
    (4, 0xff, 5),
];

/// How many items a journal has that is opened on an image; None where it doesn't open.
fn opened(alloc: Global, mut disk: Untold) -> Result<Option<usize>, AllocError> {
    match Journal::attach(alloc, &mut disk) {
        Ok(mut journal) => Ok(Some(items(alloc, &mut journal, &mut disk)?.len())),
        Err(_) => Ok(None),
    }
}

#[test]
fn a_crash_leaves_the_batch_or_not(rt: HostRuntime) -> Result<(), AllocError> {
    let alloc = rt.alloc();
    let mut disk = Untold::new(alloc, &store(alloc, &[0])?, &[])?;
    let Ok(mut journal) = Journal::attach(alloc, &mut disk) else {
        assert!(rt; false);
        return Ok(());
    };
    let batches = [
        batch(alloc, &[&LINE])?,
        batch(alloc, &[&SEND])?,
        batch(alloc, &[&SNAP, &ROOT, &SEAL])?,
    ];
    let mut before = 0;
    for batch in &batches {
        before = disk.disk.calls();
        assert!(rt; matches!(save(&mut journal, &mut disk, batch), Some(Ok(_))));
    }
    for (calls, fill, count) in CUTS {
        for long in [false, true] {
            let cut = disk.crashed(alloc, before.saturating_add(calls), long, fill)?;
            assert_eq!(rt; opened(alloc, cut)?, Some(count), "{calls} {fill}");
        }
    }
    Ok(())
}
