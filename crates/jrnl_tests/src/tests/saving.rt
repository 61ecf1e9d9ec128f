//! Batches saved in a journal.
ghost use Rattle.std.specs.Prelude.{◌≡◌, None};
ghost use Rattle.std.specs.Bool.{OnTrue};
ghost use Rattle.jrnl_store.specs.Kept.{kept};
ghost use Rattle.jrnl_store.specs.Own.{IsBatch};

use crate::tests::untold::Untold;
use avm_hash::Digest;
use avm_num::Room;
use jrnl_part::{Bounds, Standing, continued};
use jrnl_store::{Journal, StoreFault};

/// Whether items may be saved as one batch behind the journal.
pub fn is_batch(journal: &Journal, items: &[u8]) -> bool
    ensures batch { OnTrue result (IsBatch (kept journal.now) items.now) }
    ensures unmarked { OnTrue result ((kept journal.now).mark ≡ None) }
{
    let bounds = Bounds {
        first: journal.first(),
        pages: journal.page_count(),
        most: 1,
    };
    let stand = Standing {
        next: journal.last() + 1,
        hash: Digest([0; 32]),
        prior: Digest([0; 32]),
        used: 0,
        sealed: false,
        signed: None,
    };
    if items.is_empty() || items.len() > 1 << 25 {
        return false;
    }
    if journal.retired().is_some() {
        return false;
    }
    continued(&bounds, &stand, items).is_some()
}

/// What saving a batch answers: the leaf that signs it, or why it was refused. None where it is no batch.
pub fn save(
    journal: &mut Journal,
    disk: &mut Untold,
    items: &Room,
) -> Option<Result<Option<u32>, StoreFault>> {
    if !is_batch(journal, items.bytes()) {
        return None;
    }
    Some(match journal.commit(disk, items) {
        Ok(Some(ticket)) => Ok(Some(ticket.leaf())),
        Ok(None) => Ok(None),
        Err(fault) => Err(fault),
    })
}
