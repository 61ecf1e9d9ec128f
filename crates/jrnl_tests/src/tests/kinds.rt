//! A journal of each kind of item written, read, and opened again.
ghost use Rattle.std.specs.Prelude.{◌≡◌, true};
ghost use Rattle.journal_model.specs.Header.{is_store_key};

use crate::tests::saving::save;
use crate::tests::shown::{Shown, items};
use crate::tests::texts::{HEAD, KEEP, LINE, ROOT, SEAL, SEND, SNAP, base, batch, store};
use crate::tests::untold::Untold;
use avm_hash::Digest;
use avm_num::Room;
use jrnl_store::{Item, Journal, StoreFault};
use rv32_mem::Ram;
use std::alloc::{AllocError, Global};

const KINDS: [Shown; 6] = [
    Shown::Entry(1, 1),
    Shown::Entry(2, 7),
    Shown::Signed(3, 8, 0),
    Shown::Entry(4, 2),
    Shown::Keep(4),
    Shown::Seal(4, 1),
];

/// The key of `texts`, whole.
const KEY: [u8; 56] = [
    0, 0, 0, 5, 0, 0, 0, 4, 0, 0, 0, 0, 0, 0, 0, 0, 0, 0, 0, 0, 0, 0, 0, 0, 0, 0, 0, 0, 0, 0, 0, 0,
    0, 0, 0, 0, 0, 0, 0, 0, 0, 0, 0, 0, 0, 0, 0, 0, 0, 0, 0, 0, 0, 0, 0, 0,
];

#[tactic(auto, unfolding(journal_model::specs::Header::is_store_key, journal_model::specs::Header::pages_in))]
fn make(alloc: Global, disk: &mut Untold) -> Result<Journal, StoreFault> {
    Journal::make(alloc, disk, &KEY, &HEAD, &[0; 4096], &Digest(ROOT))
}

/// The entry of a ticket, by its number and kind.
fn entry_of(journal: &mut Journal, disk: &mut Untold, number: u64) -> Option<(u64, u8, usize)> {
    let mut found = None;
    let mut cursor = journal.start();
    while let Ok(Some(held)) = journal.advance(disk, &mut cursor) {
        for item in journal.items(held) {
            if let Item::Entry(_, Some(ticket)) = item {
                if ticket.seq() == number {
                    found = Some(ticket);
                }
            }
        }
    }
    let Ok(sought) = journal.seek_frame(disk, &found?) else {
        return None;
    };
    let frame = journal.frame(sought);
    Some((frame.seq, frame.kind, frame.content.len()))
}

#[test]
fn each_kind_is_read_back(rt: HostRuntime) -> Result<(), AllocError> {
    let alloc = rt.alloc();
    let mut disk = Untold::new(alloc, b"", &[])?;
    let Ok(mut journal) = make(alloc, &mut disk) else {
        assert!(rt; false);
        return Ok(());
    };
    let first = batch(alloc, &[&LINE, &SEND])?;
    assert_eq!(rt; save(&mut journal, &mut disk, &first), Some(Ok(Some(0))));
    let second = batch(alloc, &[&SNAP, &ROOT, &KEEP, &SEAL])?;
    assert_eq!(rt; save(&mut journal, &mut disk, &second), Some(Ok(Some(1))));
    assert!(rt; items(alloc, &mut journal, &mut disk)?.as_slice() == KINDS.as_slice());
    let Ok(mut again) = Journal::attach(alloc, &mut disk) else {
        assert!(rt; false);
        return Ok(());
    };
    assert!(rt; items(alloc, &mut again, &mut disk)?.as_slice() == KINDS.as_slice());
    assert_eq!(rt; entry_of(&mut again, &mut disk, 3), Some((3, 8, 20)));
    assert_eq!(rt; (again.first(), again.last(), again.bound()), (1, 4, 2));
    assert!(rt; again.sealed().is_some() && again.retired().is_none());
    assert!(rt; again.last_hash() == journal.last_hash());
    Ok(())
}

#[test]
#[tactic(auto, unfolding(avm_num::specs::Room::left))]
fn the_header_is_read_back(rt: HostRuntime) -> Result<(), AllocError> {
    let alloc = rt.alloc();
    let mut disk = Untold::new(alloc, &store(alloc, &[0])?, &[])?;
    let (Ok(mut journal), Ok(mut head), Ok(mut ram)) = (
        Journal::attach(alloc, &mut disk),
        Room::new(alloc, 16384),
        Ram::new(alloc, 1),
    ) else {
        assert!(rt; false);
        return Ok(());
    };
    assert_eq!(rt; journal.key(), KEY);
    assert!(rt; journal.head(&mut disk, &mut head).is_ok());
    assert_eq!(rt; head.bytes(), HEAD.as_slice());
    if journal.page_count() == 1 {
        assert!(rt; journal.pages(&mut disk, &mut ram).is_ok());
    }
    assert_eq!(rt; ram.load(0x8000_0000, 4), Some(0));
    Ok(())
}

#[test]
fn what_a_base_carries_comes_first(rt: HostRuntime) -> Result<(), AllocError> {
    let alloc = rt.alloc();
    let mut disk = Untold::new(alloc, &base(alloc)?, &[])?;
    let Ok(mut journal) = Journal::attach(alloc, &mut disk) else {
        assert!(rt; false);
        return Ok(());
    };
    let want = [
        Shown::Carried(3, 8, 2),
        Shown::Entry(4, 2),
        Shown::Seal(4, 3),
    ];
    assert!(rt; items(alloc, &mut journal, &mut disk)?.as_slice() == want.as_slice());
    assert_eq!(rt;
        (journal.first(), journal.last(), journal.bound()),
        (4, 4, 4)
    );
    Ok(())
}

#[test]
fn a_mark_retires(rt: HostRuntime) -> Result<(), AllocError> {
    let alloc = rt.alloc();
    let entries = batch(
        alloc,
        &[&[1, 0, 0, 0, 111], &LINE, &SEND, &SNAP, &ROOT, &[1]],
    )?;
    let mark = [0, 0, 0, 9, 4, 0, 0, 0, 0, 0, 0, 0, 4, 0];
    let bytes = batch(alloc, &[entries.bytes(), &mark])?;
    let mut disk = Untold::new(alloc, &store(alloc, bytes.bytes())?, &[])?;
    let Ok(journal) = Journal::attach(alloc, &mut disk) else {
        assert!(rt; false);
        return Ok(());
    };
    assert_eq!(rt; journal.retired(), Some(4));
    Ok(())
}
