//! Records are read from a disk.

ghost use Rattle.std.specs.Prelude.{◌≡◌, ◌==◌, false, ◌++◌, ◌<◌, ◌≤◌, ◌+◌, ◌^◌, ◌∷◌, [], ℕ, List, length, take, drop, Option, Some, None, IfOk, OnOk, IfSome};
ghost use Rattle.avm_outside.specs.Outside.{Counts};
ghost use Rattle.journal_model.specs.Journal.{longest_record};
ghost use Rattle.journal_model.specs.Part.{Part};
ghost use Rattle.journal_model.specs.Spelling.{mark_bytes, parts_bytes, record_bytes};
ghost use Rattle.journal_spelling.specs.Spelled.{FitsRecord};
ghost use Rattle.rebut_pass.specs.Reads.{OnlyReads, ReadCounts};
ghost use Rattle.base_records.specs.Records.{IsAll, found_in, record_on, records_bytes, size_in};

use crate::tail::tail_of;
use avm_num::{NoMemory, View};
use avm_outside::{Disk, Failed};
use rebut_pass::ReadFault;
use std::alloc::{AllocError, Global};

/// The most bytes of a record's items.
const LONGEST: u32 = 1 << 25;

/// The records of a base, as bytes, and whether the entry from which they go on was found.
#[derive(Drop)]
pub struct BaseRecords {
    pub bytes: Vec<u8>,
    pub found: bool,
}

/// The size of the items behind a gate, by its first six bytes; None where it is closed, or a mark stands behind it.
#[tactic(auto, unfolding(crate::specs::Records::size_in))]
fn size_of(front: &[u8]) -> Option<usize>
    ensures size { result ≡ size_in front.now }
    ensures small { IfSome result (λ size. size ≤ longest_record) }
{
    let mut view = View::new(front);
    let gate = view.take_u8()?;
    let size = view.take_u32()?;
    let tag = view.take_u8()?;
    if gate != 1 || tag == 4 || size > LONGEST {
        return None;
    }
    Some(size as usize)
}

/// Reads the gate at a place.
fn read_gate<D: Disk>(disk: &mut D, at: u64) -> Result<Option<usize>, Failed>
    ensures size { IfOk result (λ o. IfSome (D.seen disk.old) (λ was. o ≡ size_in (take 6 (drop at was)))) }
    ensures small { IfOk result (λ o. IfSome o (λ size. size ≤ longest_record)) }
    ensures reads { OnlyReads D.seen D.may_leave D.moment D.left_since disk.old disk.new }
    ensures faults { Counts (D.faults disk.old) (D.faults disk.new) result }
{
    let mut front = [0; 6];
    let n = disk.read_at(at, &mut front)?;
    Ok(size_of(&front[..n]))
}

/// Reads so many bytes from a place on to the front of a room.
fn fill<D: Disk>(disk: &mut D, room: &mut [u8], at: u64, size: usize) -> Result<(), Failed>
    requires room { size ≤ length room.old }
    ensures bytes { IfOk result (λ _. IfSome (D.seen disk.old) (λ was. at + size ≤ length was → take size room.new ≡ take size (drop at was))) }
    ensures room { length room.new ≡ length room.old }
    ensures reads { OnlyReads D.seen D.may_leave D.moment D.left_since disk.old disk.new }
    ensures faults { Counts (D.faults disk.old) (D.faults disk.new) result }
{
    match disk.read_at(at, &mut room[..size]) {
        Ok(_) => Ok(()),
        Err(failed) => Err(failed),
    }
}

/// Reads the items behind the gate at a place to the front of a room, and tells their size; None where it is closed, or a mark
/// stands behind it.
fn read_items<D: Disk>(disk: &mut D, room: &mut [u8], at: u64) -> Result<Option<usize>, Failed>
    requires room { length room.old ≡ longest_record }
    requires place { at < 2 ^ 30 }
    ensures stands { IfOk result (λ o. IfSome (D.seen disk.old) (λ was. (ps : List Part) (more : List ℕ) → FitsRecord ps → drop at was ≡ record_bytes (parts_bytes ps) ++ more → (o ≡ Some (length (parts_bytes ps))) × (take (length (parts_bytes ps)) room.new ≡ parts_bytes ps))) }
    ensures end { IfOk result (λ o. IfSome (D.seen disk.old) (λ was. (mark : Option ℕ) (gate : ℕ) (rest : List ℕ) → (gate == 1) ≡ false → drop at was ≡ mark_bytes mark ++ gate ∷ rest → o ≡ None)) }
    ensures small { IfOk result (λ o. IfSome o (λ size. size ≤ longest_record)) }
    ensures room { length room.new ≡ length room.old }
    ensures reads { OnlyReads D.seen D.may_leave D.moment D.left_since disk.old disk.new }
    ensures faults { Counts (D.faults disk.old) (D.faults disk.new) result }
{
    let size = match read_gate(disk, at) {
        Ok(Some(size)) => size,
        Ok(None) => return Ok(None),
        Err(failed) => return Err(failed),
    };
    match fill(disk, room, at + 5, size) {
        Ok(()) => Ok(Some(size)),
        Err(failed) => Err(failed),
    }
}

/// Adds a record's items behind an open gate.
#[tactic(auto, unfolding(avm_num::specs::Lists::be, journal_model::specs::Spelling::record_bytes))]
fn put_record(out: &mut Vec<u8>, entry: &[u8], behind: &[u8]) -> Result<(), AllocError>
    requires { length entry.now + length behind.now < 2 ^ 32 }
    ensures { OnOk result (out.new.items ≡ out.old.items ++ record_bytes (entry.now ++ behind.now)) }
{
    let size = (entry.len() + behind.len()) as u32;
    out.extend_from_slice(&[1])?;
    out.extend_from_slice(&size.to_be_bytes())?;
    out.extend_from_slice(entry)?;
    out.extend_from_slice(behind)
}

impl BaseRecords {
    /// Takes the next record's items, in a search for the entry of a number.
    fn take(&mut self, items: &[u8], number: u64) -> Result<(), AllocError>
        requires { length items.now ≤ longest_record }
        ensures found { OnOk result ((ps : List Part) → FitsRecord ps → items.now ≡ parts_bytes ps → self.new.found ≡ found_in self.old.found number ps) }
        ensures bytes { OnOk result ((ps : List Part) → FitsRecord ps → items.now ≡ parts_bytes ps → self.new.bytes.items ≡ self.old.bytes.items ++ records_bytes (record_on self.old.found number ps)) }
    {
        if self.found {
            return put_record(&mut self.bytes, items, &[]);
        }
        let Some(tail) = tail_of(items, number) else {
            return Ok(());
        };
        self.found = true;
        put_record(&mut self.bytes, tail.entry, tail.behind)
    }
}

/// A room for the items of a record.
fn room(alloc: Global) -> Result<Vec<u8>, NoMemory>
    ensures { IfOk result (λ v. length v.items ≡ longest_record) }
{
    match vec![in alloc; 0u8; LONGEST as usize] {
        Ok(room) => Ok(room),
        Err(AllocError) => Err(NoMemory),
    }
}

/// Takes the records from a place on.
fn walk<D: Disk>(
    disk: &mut D,
    room: &mut [u8],
    at: u64,
    number: u64,
    records: &mut BaseRecords,
) -> Result<(), ReadFault>
    requires room { length room.old ≡ longest_record }
    requires new { records.old.bytes.items ≡ [] }
    requires none { records.old.found ≡ false }
    ensures records { OnOk result (IfSome (D.seen disk.old) (IsAll number at records.new.bytes.items)) }
    ensures reads { OnlyReads D.seen D.may_leave D.moment D.left_since disk.old disk.new }
    ensures faults { ReadCounts (D.faults disk.old) (D.faults disk.new) result }
{
    let mut at = at;
    while at < 1 << 30 {
        let size = match read_items(disk, room, at) {
            Ok(Some(size)) => size,
            Ok(None) => return Ok(()),
            Err(Failed) => return Err(ReadFault::DiskFault),
        };
        if let Err(AllocError) = records.take(&room[..size], number) {
            return Err(ReadFault::NoMemory);
        }
        at += 5 + size as u64;
    }
    Ok(())
}

/// Reads the records that stand at a place of a disk, and gives those of the base that goes on from the entry of a number.
pub fn read_records<D: Disk>(
    alloc: Global,
    disk: &mut D,
    at: u64,
    number: u64,
) -> Result<BaseRecords, ReadFault>
    ensures records { IfOk result (λ r. IfSome (D.seen disk.old) (IsAll number at r.bytes.items)) }
    ensures reads { OnlyReads D.seen D.may_leave D.moment D.left_since disk.old disk.new }
    ensures faults { ReadCounts (D.faults disk.old) (D.faults disk.new) result }
{
    let Ok(mut room) = room(alloc) else {
        return Err(ReadFault::NoMemory);
    };
    let mut records = BaseRecords {
        bytes: Vec::new(alloc),
        found: false,
    };
    match walk(disk, &mut room, at, number, &mut records) {
        Ok(()) => Ok(records),
        Err(fault) => Err(fault),
    }
}
