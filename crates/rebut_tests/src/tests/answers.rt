//! What each store answers to each evidence, as an independent program gives it.

use crate::tests::evidence::{Shown, key};
use crate::tests::running::{NONE, ends_as};
use crate::tests::stores::Store;
use std::alloc::{AllocError, Global};

/// A store, evidence, the line and the status.
type Row = (Store, Shown, &'static str, u8);

/// Two stores of one key: each says which of the two pairs it never signed.
const ANSWERS: [Row; 6] = [
    (Store::Printing, Shown::Double, "forged 1\n", 0),
    (Store::Looping, Shown::Double, "forged 0\n", 0),
    (Store::Printed, Shown::Double, "forged 0\n", 0),
    (Store::Printed, Shown::Fork, "forged 1\n", 0),
    (Store::Printing, Shown::Fork, "forged 0\n", 0),
    (Store::Printed, Shown::Replay, "forged 0\n", 0),
];

/// The first refusal that applies: the file, the grammar, the store, its head.
const UNREAD: [Row; 8] = [
    (Store::Empty, Shown::Missing, "refused file --evidence\n", 3),
    (Store::Empty, Shown::Longer, "refused evidence\n", 2),
    (Store::Printing, Shown::Longer, "refused evidence\n", 2),
    (Store::Empty, Shown::Double, "refused nostore\n", 2),
    (Store::Empty, Shown::Twice, "refused nostore\n", 2),
    (Store::Cut, Shown::Double, "refused damaged 5460\n", 2),
    (Store::Cut, Shown::Twice, "refused damaged 5460\n", 2),
    (Store::NoHead, Shown::Twice, "refused nostore\n", 2),
];

/// The key, whether it holds, whether the journal replays.
const REFUSED: [Row; 6] = [
    (Store::OtherKey, Shown::Double, "refused key\n", 2),
    (Store::OtherKey, Shown::Twice, "refused key\n", 2),
    (Store::Printing, Shown::Twice, "refused evidence\n", 2),
    (Store::Early, Shown::Twice, "refused evidence\n", 2),
    (Store::Early, Shown::Double, "refused journal 2\n", 2),
    (Store::Early, Shown::Replay, "refused journal 2\n", 2),
];

/// A retired store speaks of what is before its last entry, and the base of what is from its first entry on.
const COVERED: [Row; 4] = [
    (Store::Retired, Shown::Three, "forged 0\n", 0),
    (Store::Retired, Shown::Four, "refused uncovered\n", 2),
    (Store::Base, Shown::Three, "refused uncovered\n", 2),
    (Store::Base, Shown::Four, "forged 0\n", 0),
];

/// The first row whose line or status is another.
fn other(alloc: Global, rows: &[Row]) -> Option<Row> {
    let key = key(alloc);
    for row in rows {
        let (store, shown, line, status) = *row;
        let same = match &key {
            Some(key) => ends_as(alloc, key, store, shown, NONE, line, status),
            None => None,
        };
        if same != Some(true) {
            return Some(*row);
        }
    }
    None
}

#[test]
fn each_store_answers(rt: HostRuntime) -> Result<(), AllocError> {
    let row = other(rt.alloc(), &ANSWERS);
    assert!(rt; row.is_none(), "{row:?}");
    Ok(())
}

#[test]
fn what_is_not_read_is_refused(rt: HostRuntime) -> Result<(), AllocError> {
    let row = other(rt.alloc(), &UNREAD);
    assert!(rt; row.is_none(), "{row:?}");
    Ok(())
}

#[test]
fn what_is_read_is_refused_in_order(rt: HostRuntime) -> Result<(), AllocError> {
    let row = other(rt.alloc(), &REFUSED);
    assert!(rt; row.is_none(), "{row:?}");
    Ok(())
}

#[test]
fn retired_stores_and_bases_cover_their_parts(rt: HostRuntime) -> Result<(), AllocError> {
    let row = other(rt.alloc(), &COVERED);
    assert!(rt; row.is_none(), "{row:?}");
    Ok(())
}
