//! Calls that fail in turn.

use crate::tests::evidence::{Shown, key};
use crate::tests::running::{Fails, NONE, ends_as};
use crate::tests::stores::Store;
use std::alloc::AllocError;

#[test]
fn calls_on_the_disk_fail(rt: HostRuntime) -> Result<(), AllocError> {
    let alloc = rt.alloc();
    let Some(key) = key(alloc) else {
        assert!(rt; false);
        return Ok(());
    };
    // the sync, the length, and a read
    for disk in 1..4 {
        let fails = Fails { disk, ..NONE };
        assert!(rt;
            ends_as(
                alloc,
                &key,
                Store::Printing,
                Shown::Double,
                fails,
                "fault disk\n",
                4
            ) == Some(true),
            "{disk}"
        );
    }
    // none is made before the evidence is read
    let fails = Fails { disk: 1, ..NONE };
    assert!(rt;
        ends_as(
            alloc,
            &key,
            Store::Printing,
            Shown::Longer,
            fails,
            "refused evidence\n",
            2
        ) == Some(true)
    );
    Ok(())
}

#[test]
fn calls_on_the_files_and_the_sink_fail(rt: HostRuntime) -> Result<(), AllocError> {
    let alloc = rt.alloc();
    let Some(key) = key(alloc) else {
        assert!(rt; false);
        return Ok(());
    };
    let fails = Fails { files: 1, ..NONE };
    assert!(rt;
        ends_as(
            alloc,
            &key,
            Store::Printing,
            Shown::Double,
            fails,
            "fault files\n",
            4
        ) == Some(true)
    );
    let fails = Fails { out: 1, ..NONE };
    assert!(rt; ends_as(alloc, &key, Store::Printing, Shown::Double, fails, "", 4) == Some(true));
    Ok(())
}
