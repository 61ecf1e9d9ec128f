//! Each call of a commit fails once.

use crate::tests::saving::save;
use crate::tests::shown::items;
use crate::tests::texts::{LINE, SEND, batch, store};
use crate::tests::untold::Untold;
use jrnl_store::{Journal, Stop, StoreFault};
use std::alloc::AllocError;

/// How many calls are made before the commit: two that write the store, and those that open it.
const BEFORE: u64 = 8;

#[test]
fn a_failing_call_stops_the_journal(rt: HostRuntime) -> Result<(), AllocError> {
    let alloc = rt.alloc();
    for call in 1..5 {
        let mut disk = Untold::new(alloc, &store(alloc, &[0])?, &[BEFORE + call])?;
        let Ok(mut journal) = Journal::attach(alloc, &mut disk) else {
            assert!(rt; false);
            return Ok(());
        };
        assert!(rt;
            disk.disk.calls() as u64 == BEFORE,
            "{} calls",
            disk.disk.calls()
        );
        let line = batch(alloc, &[&LINE])?;
        let ended = StoreFault::Ended(Stop::DiskFault);
        for want in [StoreFault::DiskFault, ended, ended] {
            assert_eq!(rt;
                save(&mut journal, &mut disk, &line),
                Some(Err(want)),
                "{call}"
            );
        }
        assert!(rt; items(alloc, &mut journal, &mut disk)?.len() == 1, "{call}");
    }
    Ok(())
}

#[test]
fn a_call_that_opens_fails(rt: HostRuntime) -> Result<(), AllocError> {
    let alloc = rt.alloc();
    for call in 3..=BEFORE {
        let mut disk = Untold::new(alloc, &store(alloc, &[0])?, &[call])?;
        let fault = StoreFault::DiskFault;
        assert!(rt;
            matches!(Journal::attach(alloc, &mut disk), Err(f) if f == fault),
            "{call}"
        );
    }
    Ok(())
}

#[test]
fn leaves_are_spent(rt: HostRuntime) -> Result<(), AllocError> {
    let alloc = rt.alloc();
    let mut disk = Untold::new(alloc, &store(alloc, &[0])?, &[])?;
    let Ok(mut journal) = Journal::attach(alloc, &mut disk) else {
        assert!(rt; false);
        return Ok(());
    };
    let line = batch(alloc, &[&LINE])?;
    assert_eq!(rt; save(&mut journal, &mut disk, &line), Some(Ok(None)));
    let seal = batch(alloc, &[&[2]])?;
    for leaf in 0..32 {
        assert_eq!(rt; save(&mut journal, &mut disk, &seal), Some(Ok(Some(leaf))));
    }
    let send = batch(alloc, &[&SEND])?;
    let ended = StoreFault::Ended(Stop::LeavesSpent);
    for want in [StoreFault::LeavesSpent, ended, ended] {
        assert_eq!(rt; save(&mut journal, &mut disk, &send), Some(Err(want)));
    }
    assert!(rt; items(alloc, &mut journal, &mut disk)?.len() == 34);
    Ok(())
}
