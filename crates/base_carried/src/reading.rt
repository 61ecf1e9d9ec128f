//! A journal is read for the entries that a base carries.

ghost use Rattle.std.specs.Prelude.{◌≡◌, map, IfOk};
ghost use Rattle.jrnl_store.specs.Kept.{kept};
ghost use Rattle.journal_spelling.specs.Spelled.{HasSpelling};
ghost use Rattle.rebut_pass.specs.Reads.{OfJournal, OnlyReads, ReadCounts};
ghost use Rattle.base_carried.specs.Rows.{row_for};
ghost use Rattle.base_carried.specs.Passes.{IsCarried, IsFound};

use crate::finding::Finding;
use crate::picking::Picking;
use crate::row::Row;
use avm_model::Peer;
use avm_num::NoMemory;
use avm_outside::Disk;
use jrnl_store::Journal;
use rebut_pass::{ReadFault, read_all};
use std::alloc::Global;

/// The entries that a base carries: how many, and their bytes.
#[derive(Drop)]
pub struct Carried {
    pub count: u8,
    pub bytes: Vec<u8>,
}

/// A row for each peer.
fn rows_for(alloc: Global, peers: &[Peer]) -> Result<Vec<Row>, NoMemory>
    ensures { IfOk result (λ v. v.items ≡ map row_for peers.now) }
{
    let mut rows = Vec::new(alloc);
    for peer in peers {
        if let Err(_) = rows.push(Row::new(peer)) {
            return Err(NoMemory);
        }
    }
    Ok(rows)
}

/// Reads which of the entries before that of a number the peers' rows ask for.
fn find<D: Disk>(
    alloc: Global,
    journal: &mut Journal,
    disk: &mut D,
    number: u64,
    peers: &[Peer],
) -> Result<Vec<Row>, ReadFault>
    ensures found { IfOk result (λ v. OfJournal (D.seen disk.old) (kept journal.old) (λ j. IsFound j number peers.now v.items)) }
    ensures kept { kept journal.new ≡ kept journal.old }
    ensures reads { OnlyReads D.seen D.may_leave D.moment D.left_since disk.old disk.new }
    ensures faults { ReadCounts (D.faults disk.old) (D.faults disk.new) result }
{
    let Ok(rows) = rows_for(alloc, peers) else {
        return Err(ReadFault::NoMemory);
    };
    let mut finding = Finding { number, rows };
    match read_all(alloc, journal, disk, &mut finding) {
        Ok(()) => Ok(finding.rows),
        Err(fault) => Err(fault),
    }
}

/// Reads the entries that the base from the SNAP entry of a number on carries: for each peer, by its row of the state there, the SEND
/// that isn't acknowledged, and the last RECV.
pub fn read_carried<D: Disk>(
    alloc: Global,
    journal: &mut Journal,
    disk: &mut D,
    number: u64,
    peers: &[Peer],
) -> Result<Carried, ReadFault>
    ensures carried { IfOk result (λ c. OfJournal (D.seen disk.old) (kept journal.old) (λ j. HasSpelling j → IsCarried j number peers.now c)) }
    ensures kept { kept journal.new ≡ kept journal.old }
    ensures reads { OnlyReads D.seen D.may_leave D.moment D.left_since disk.old disk.new }
    ensures faults { ReadCounts (D.faults disk.old) (D.faults disk.new) result }
{
    let rows = match find(alloc, journal, disk, number, peers) {
        Ok(rows) => rows,
        Err(fault) => return Err(fault),
    };
    let mut picking = Picking {
        number,
        rows,
        count: 0,
        bytes: Vec::new(alloc),
    };
    match read_all(alloc, journal, disk, &mut picking) {
        Ok(()) => Ok(Carried {
            count: picking.count,
            bytes: picking.bytes,
        }),
        Err(fault) => Err(fault),
    }
}
