//! What isn't opened.

use crate::tests::running::{Script, run};
use crate::tests::stores::{Guest, other_signer, signer, store};
use crate::tests::untold::Untold;
use recorder::{RecordFault, Recorder};
use std::alloc::Global;

/// Why a disk isn't opened under a key; None where it is.
fn refusal(alloc: Global, disk: &mut Untold, own: bool) -> Option<Option<RecordFault>> {
    let signer = if own {
        signer(alloc)?
    } else {
        other_signer(alloc)?
    };
    Some(Recorder::attach(alloc, disk, signer).err())
}

fn refusals(alloc: Global) -> Option<bool> {
    let mut empty = Untold::new(alloc, &[], &[]).ok()?;
    let mut other = store(alloc, Guest::Spins)?;
    let mut own = store(alloc, Guest::Spins)?;
    run(alloc, &mut own, Script::new(&[b"A"], &[], 0))?;
    Some(
        refusal(alloc, &mut empty, true)? == Some(RecordFault::NoStore)
            && refusal(alloc, &mut other, false)? == Some(RecordFault::KeyMismatch)
            && refusal(alloc, &mut own, true)?.is_none(),
    )
}

#[test]
fn a_store_of_another_key_isnt_opened(rt: HostRuntime) {
    assert_eq!(rt; refusals(rt.alloc()), Some(true));
}
