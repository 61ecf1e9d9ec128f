ghost use Rattle.std.specs.Prelude.{◌≡◌, ◌+◌, ◌*◌, ◌^◌, ◌≤◌, ◌<◌, ◌++◌, ◌∷◌, [], true, All, None, Some, take, drop, length, IfSome, IfOk, IfErr, option_map, if◌then◌else◌, OnOk, OnErr, MatchOption, MatchBool, List, ℕ};
ghost use Rattle.std.proofs.Props.{props};
ghost use Rattle.avm_outside.specs.Outside.{BothTold, Counts};
ghost use Rattle.journal_model.specs.Header.{most_leaves};
ghost use Rattle.journal_model.specs.Part.{longest_head, parts_of};
ghost use Rattle.journal_model.specs.Saving.{commit_refusal};
ghost use Rattle.journal_model.specs.Journal.{JournalData, longest_record, ended, Is, has_snap, entries, mark_at, begins_mark};
ghost use Rattle.journal_model.specs.Standing.{IsLow, continued as continued_lem};
ghost use Rattle.jrnl_part.specs.Starts.{IsLowStart};
ghost use Rattle.jrnl_part.specs.Places.{head_place};
ghost use Rattle.jrnl_part.specs.Views.{bounds_view, standing_view};
ghost use Rattle.avm_outside.specs.Moments.{LeavesOnly, Begins, IsShut, Reaches};
ghost use Rattle.jrnl_store.specs.Reading.{IsFound, IsSized};
ghost use Rattle.jrnl_store.specs.Writing.{IsWritten, IsShutOrWritten, Each, staged};

use crate::cursor::{Cursor, Record};
use crate::fault::{Stop, StoreFault};
use crate::items::Items;
use crate::reading::{Found, read_bytes, read_front, read_record};
use crate::snaps::{Seek, find_snap};
use crate::staging::stage;
use crate::ticket::Ticket;
use crate::writing::write_record;
use avm_hash::Digest;
use avm_num::{Room, View};
use avm_outside::{Disk, Failed};
use jrnl_part::{Bounds, Standing, Start, continued, is_carriage};
use std::alloc::Global;

/// A journal, which doesn't hold its disk.
#[derive(Drop)]
pub struct Journal {
    pub(crate) key: [u8; 56],
    pub(crate) before: Digest,
    pub(crate) bounds: Bounds,
    pub(crate) head_len: u32,
    pub(crate) leaves: u64,
    pub(crate) front: u64,
    pub(crate) gate: u64,
    pub(crate) stand: Standing,
    pub(crate) mark: Option<u64>,
    pub(crate) stop: Option<Stop>,
    pub(crate) buffer: Vec<u8>,
    pub ghost some: { 1 ≤ bounds.first },
    pub ghost first: { bounds.first ≤ 2 ^ 61 },
    ghost earlier: { leaves ≤ bounds.most },
    pub ghost begun: { bounds.first ≤ stand.next },
    pub ghost near: { stand.next ≤ bounds.first + gate },
    pub ghost next: { stand.next < 2 ^ 62 },
    ghost used: { stand.used ≤ bounds.most },
    ghost most: { bounds.most ≤ 2 ^ 15 },
    ghost tree: { bounds.most ≡ most_leaves key },
    pub ghost place: { gate < 2 ^ 30 },
    ghost signed: { IfSome (standing_view stand).signed (λ s. s.leaf < bounds.most) } by { Prim.hlevel props },
    ghost head: { head_len ≤ longest_head },
    ghost pages: { bounds.pages ≤ 4096 },
    ghost carriage: { head_place + head_len + 4096 * bounds.pages ≤ front },
    ghost header: { front ≤ longest_record + 5 },
    ghost room: { length buffer.items ≡ longest_record + 5 },
}

/// Whether items begin as a mark does.
fn is_mark(items: &[u8]) -> bool
    ensures { result ≡ begins_mark items.now }
{
    match items {
        [] => false,
        [tag, ..] => *tag == 4,
    }
}

/// The number that a mark's bytes are.
#[tactic(auto, unfolding(journal_model::specs::Journal::mark_at))]
fn mark_number(bytes: &[u8]) -> Option<u64>
    ensures { result ≡ mark_at bytes.now }
{
    let mut view = View::new(bytes);
    let number = view.take_u64()?;
    if !view.rest().is_empty() {
        return None;
    }
    Some(number)
}

/// So many zero bytes.
pub(crate) fn zeros(alloc: Global, size: usize) -> Option<Vec<u8>>
    ensures { IfSome result (λ v. length v.items ≡ size) }
{
    vec![in alloc; 0u8; size].ok()
}

impl Journal {
    ghost use Rattle.jrnl_store.specs.Kept.{kept, kept_start, ticket_view, ticket_between};
    ghost use Rattle.jrnl_store.specs.Items.{ItemData, IsHeld, held_items, IsLeft, PartsLeft, PartsAnswers, ItemsAnswers, IsLowItem, items_in, part_items, moves_left, disk_fault, SeekAnswers, GoesOn};
    ghost use Rattle.jrnl_store.specs.Own.{IsOwn, IsBatch, Answers, IsBehind, IsSpent, IsFull, IsAt, StepAnswers, MarkAnswers, JoinAnswers, RestAnswers, WalkAnswers, OpenAnswers, AttachAnswers, WhereRefused, IsCursor, NextAnswers, after_commit, StandsForEither, CommitCause, CommitLeaves, CountsFaults};

    /// Stops the journal.
    pub(crate) fn stops(&mut self, stop: Stop)
        ensures { kept self.new ≡ record (kept self.old) { stop = Some stop } }
    {
        self.stop = Some(stop);
    }

    /// Goes behind a record of so many bytes, where it stands so.
    pub(crate) fn goes_behind(&mut self, stand: Standing, len: usize) -> Option<Ticket>
        requires low { IsLow (bounds_view self.old.bounds) (standing_view stand) }
        requires least { self.old.stand.next ≤ stand.next }
        requires most { stand.next ≤ self.old.stand.next + len }
        requires place { self.old.gate + 5 + len < 2 ^ 30 }
        ensures kept { kept self.new ≡ record (kept self.old) { gate = self.old.gate + 5 + len; standing = standing_view stand } }
        ensures ticket { option_map ticket_view result ≡ ticket_between (standing_view self.old.stand) (standing_view stand) }
    {
        let signs = stand.used != self.stand.used;
        self.stand = stand;
        self.gate += 5 + len as u64;
        if !signs {
            return None;
        }
        match stand.signed {
            Some(item) => Some(Ticket::new(item)),
            None => None,
        }
    }

    /// Writes a batch of items as one record behind the last gate, and opens the gate.
    pub(crate) fn append<D: Disk>(&mut self, disk: &mut D, items: &[u8]) -> Result<(), Failed>
        requires few { length items.now ≤ longest_record }
        requires within { IfSome (D.seen disk.old) (λ was. self.old.gate < length was) }
        ensures kept { kept self.new ≡ kept self.old }
        ensures written { OnOk result (BothTold (D.seen disk.old) (D.seen disk.new) (λ was now.
            (front : List ℕ) → length front ≡ self.old.gate → IsShut front was → IsWritten front (staged items.now) now × Each (D.may_leave disk.new) (λ c. c ≡ now))) }
        ensures failed { OnErr result (BothTold (D.seen disk.old) (D.seen disk.new) (λ was now.
            (front : List ℕ) → length front ≡ self.old.gate → Reaches front was → Each (D.may_leave disk.old) (Begins front) → Reaches front now × Each (D.may_leave disk.new) (Begins front))) }
        ensures any_moment { IfSome (D.seen disk.old) (λ was.
            (front : List ℕ) → length front ≡ self.old.gate → IsShut front was → Each (D.may_leave disk.old) (IsShut front) → LeavesOnly D.moment D.left_since disk.old disk.new (IsShutOrWritten front (staged items.now))) }
        ensures faults { Counts (D.faults disk.old) (D.faults disk.new) result }
    {
        stage(&mut self.buffer, items);
        write_record(disk, self.gate, &self.buffer[..items.len() + 5])
    }

    /// Where the journal stands behind a batch. None exactly where its leaves are spent.
    fn behind(&self, items: &[u8]) -> Option<Standing>
        requires batch { IsBatch (kept self.now) items.now }
        ensures value { MatchOption result (IsSpent (kept self.now) items.now) (λ s. IsBehind (kept self.now) items.now (standing_view s)) }
        ensures next { IfSome result (λ s. (self.now.stand.next ≤ s.next) × (s.next ≤ self.now.stand.next + length items.now)) }
    {
        continued(&self.bounds, &self.stand, items)
    }

    /// Whether a record of so many bytes would end past the last place.
    pub(crate) fn is_full(&self, items: &[u8]) -> bool
        requires few { length items.now ≤ longest_record }
        ensures { MatchBool result (IsFull (kept self.now) items.now) (IsFull (kept self.now) items.now → ⊥) }
    {
        self.gate + 5 + items.len() as u64 >= 1 << 30
    }

    /// Adds a batch of whole items as one record. Its ticket is that of the item which signs, where one does.
    pub fn commit<D: Disk>(
        &mut self,
        disk: &mut D,
        batch: &Room,
    ) -> Result<Option<Ticket>, StoreFault>
        requires own { IfSome (D.seen disk.old) (λ was. (j : JournalData) × IsOwn (kept self.old) (D.may_leave disk.old) was j) }
        requires unmarked { self.old.mark ≡ None }
        requires batch { IsBatch (kept self.old) batch.now.bytes }
        ensures cause { CommitCause (kept self.old) batch.now.bytes result }
        ensures answers { IfSome (D.seen disk.old) (λ was. (j : JournalData) → IsOwn (kept self.old) (D.may_leave disk.old) was j → self.old.stop ≡ None
            → Answers (commit_refusal j (parts_of batch.now.bytes)) result) }
        ensures kept { CommitLeaves (kept self.old) batch.now.bytes (kept self.new) result }
        ensures ticket { IfOk result (λ t. option_map ticket_view t ≡ ticket_between (standing_view self.old.stand) (standing_view self.new.stand)) }
        ensures leaf { IfOk result (λ t. IfSome t (λ ticket. (ticket_view ticket).leaf < most_leaves self.old.key)) }
        ensures quiet { WhereRefused result (disk.new ≡ disk.old) }
        ensures own { BothTold (D.seen disk.old) (D.seen disk.new) (λ was now. (j : JournalData) → IsOwn (kept self.old) (D.may_leave disk.old) was j
            → IsOwn (kept self.new) (D.may_leave disk.new) now (after_commit j batch.now.bytes result)) }
        ensures any_moment { IfSome (D.seen disk.old) (λ was. (j : JournalData) → IsOwn (kept self.old) (D.may_leave disk.old) was j → self.old.stop ≡ None
            → LeavesOnly D.moment D.left_since disk.old disk.new (StandsForEither j batch.now.bytes)) }
        ensures faults { CountsFaults (D.faults disk.old) (D.faults disk.new) result }
    {
        if let Some(stop) = self.stop {
            return Err(StoreFault::Ended(stop));
        }
        let items = batch.bytes();
        let Some(stand) = self.behind(items) else {
            self.stops(Stop::LeavesSpent);
            return Err(StoreFault::LeavesSpent);
        };
        if self.is_full(items) {
            self.stops(Stop::Full);
            return Err(StoreFault::Full);
        }
        match self.append(disk, items) {
            Ok(()) => Ok(self.goes_behind(stand, items.len())),
            Err(Failed) => {
                self.stops(Stop::DiskFault);
                Err(StoreFault::DiskFault)
            }
        }
    }

    /// Whether a SNAP entry has this number.
    fn has_snap<D: Disk>(&mut self, disk: &mut D, number: u64) -> Result<bool, Failed>
        ensures kept { kept self.new ≡ kept self.old }
        ensures found { IfOk result (λ b. IfSome (D.seen disk.old) (λ was. (j : JournalData) → IsAt (kept self.old) was j → b ≡ has_snap number (entries j))) }
        ensures same { D.seen disk.new ≡ D.seen disk.old }
        ensures crash { (c : List ℕ) → D.may_leave disk.new c → D.may_leave disk.old c }
        ensures later { D.moment disk.old ≤ D.moment disk.new }
        ensures moments { (t : ℕ) (c : List ℕ) → t ≤ D.moment disk.old → D.left_since disk.new t c → D.left_since disk.old t c }
        ensures faults { Counts (D.faults disk.old) (D.faults disk.new) result }
    {
        if self.gate == self.front {
            return Ok(false);
        }
        let mut cursor = self.start();
        loop {
            match self.seek(disk, &mut cursor, number) {
                Ok(Seek::Passed) => {}
                Ok(Seek::Found(is_snap)) => return Ok(is_snap),
                Ok(Seek::Ended) => return Ok(false),
                Err(failed) => return Err(failed),
            }
        }
    }

    /// Goes behind the parts that the front of the buffer holds; false where they don't continue the journal.
    fn join_parts(&mut self, size: usize) -> bool
        requires room { size ≤ longest_record }
        requires place { self.old.gate + 5 + size < 2 ^ 30 }
        ensures joined { MatchBool result (continued_lem (bounds_view self.old.bounds) (standing_view self.old.stand) (take size self.old.buffer.items) ≡ Some (standing_view self.new.stand))
            (continued_lem (bounds_view self.old.bounds) (standing_view self.old.stand) (take size self.old.buffer.items) ≡ None) }
        ensures kept { kept self.new ≡ (if result then record (kept self.old) { gate = self.old.gate + 5 + size; standing = standing_view self.new.stand } else kept self.old) }
    {
        let Some(stand) = continued(&self.bounds, &self.stand, &self.buffer[..size]) else {
            return false;
        };
        self.goes_behind(stand, size);
        true
    }

    /// Goes behind the mark that the front of the buffer holds; false where it is none.
    fn join_mark<D: Disk>(&mut self, disk: &mut D, size: usize) -> Result<bool, Failed>
        requires some { 1 ≤ size }
        requires room { size ≤ longest_record }
        requires place { self.old.gate + 5 + size < 2 ^ 30 }
        ensures joined { IfOk result (λ b. IfSome (D.seen disk.old) (λ was. (j : JournalData) → IsAt (kept self.old) was j → MarkAnswers b (kept self.new) j (drop 1 (take size self.old.buffer.items)))) }
        ensures kept { IfOk result (λ b. kept self.new ≡ (if b then record (kept self.old) { gate = self.old.gate + 5 + size; mark = self.new.mark } else kept self.old)) }
        ensures front { self.new.front ≡ self.old.front }
        ensures stop { self.new.stop ≡ self.old.stop }
        ensures same { D.seen disk.new ≡ D.seen disk.old }
        ensures crash { (c : List ℕ) → D.may_leave disk.new c → D.may_leave disk.old c }
        ensures later { D.moment disk.old ≤ D.moment disk.new }
        ensures moments { (t : ℕ) (c : List ℕ) → t ≤ D.moment disk.old → D.left_since disk.new t c → D.left_since disk.old t c }
        ensures faults { Counts (D.faults disk.old) (D.faults disk.new) result }
    {
        let Some(number) = mark_number(&self.buffer[1..size]) else {
            return Ok(false);
        };
        if !self.has_snap(disk, number)? {
            return Ok(false);
        }
        self.is_marked(number, size);
        Ok(true)
    }

    /// Goes behind a mark of so many bytes.
    pub(crate) fn is_marked(&mut self, number: u64, size: usize)
        requires place { self.old.gate + 5 + size < 2 ^ 30 }
        ensures { kept self.new ≡ record (kept self.old) { gate = self.old.gate + 5 + size; mark = Some number } }
    {
        self.mark = Some(number);
        self.gate += 5 + size as u64;
    }

    /// Goes behind the items that the front of the buffer holds; false where no record of them stands behind the journal.
    fn join<D: Disk>(&mut self, disk: &mut D, size: usize) -> Result<bool, Failed>
        requires some { 1 ≤ size }
        requires room { size ≤ longest_record }
        requires place { self.old.gate + 5 + size < 2 ^ 30 }
        ensures joined { IfOk result (λ b. IfSome (D.seen disk.old) (λ was. (j : JournalData) → IsAt (kept self.old) was j → JoinAnswers b (kept self.new) j (take size self.old.buffer.items))) }
        ensures gate { IfOk result (λ b. MatchBool b (self.new.gate ≡ self.old.gate + 5 + size) (self.new.gate ≡ self.old.gate)) }
        ensures front { self.new.front ≡ self.old.front }
        ensures stop { self.new.stop ≡ self.old.stop }
        ensures same { D.seen disk.new ≡ D.seen disk.old }
        ensures crash { (c : List ℕ) → D.may_leave disk.new c → D.may_leave disk.old c }
        ensures later { D.moment disk.old ≤ D.moment disk.new }
        ensures moments { (t : ℕ) (c : List ℕ) → t ≤ D.moment disk.old → D.left_since disk.new t c → D.left_since disk.old t c }
        ensures faults { Counts (D.faults disk.old) (D.faults disk.new) result }
    {
        if self.mark.is_some() {
            return Ok(false);
        }
        if is_mark(&self.buffer[..size]) {
            return self.join_mark(disk, size);
        }
        Ok(self.join_parts(size))
    }

    /// Reads the items behind the last gate into the buffer.
    fn read<D: Disk>(&mut self, disk: &mut D, len: u64) -> Result<Found, Failed>
        requires len { IfSome (D.seen disk.old) (λ was. len ≡ length was) }
        ensures found { IfOk result (λ f. IfSome (D.seen disk.old) (λ was. IsFound f self.old.gate self.new.buffer.items (drop self.old.gate was))) }
        ensures size { IfOk result (λ f. IsSized f self.old.gate) }
        ensures kept { kept self.new ≡ kept self.old }
        ensures same { D.seen disk.new ≡ D.seen disk.old }
        ensures crash { (c : List ℕ) → D.may_leave disk.new c → D.may_leave disk.old c }
        ensures later { D.moment disk.old ≤ D.moment disk.new }
        ensures moments { (t : ℕ) (c : List ℕ) → t ≤ D.moment disk.old → D.left_since disk.new t c → D.left_since disk.old t c }
        ensures faults { Counts (D.faults disk.old) (D.faults disk.new) result }
    {
        read_record(disk, &mut self.buffer, self.gate, len)
    }

    /// Reads the record behind the last gate and goes behind it; false where that gate is closed.
    fn step<D: Disk>(&mut self, disk: &mut D, len: u64) -> Result<bool, StoreFault>
        requires len { IfSome (D.seen disk.old) (λ was. len ≡ length was) }
        ensures answers { IfSome (D.seen disk.old) (λ was. (j : JournalData) → IsAt (kept self.old) was j → StepAnswers (kept self.old) (kept self.new) was j result) }
        ensures stop { self.new.stop ≡ self.old.stop }
        ensures gate { IfOk result (λ b. MatchBool b (self.old.gate < self.new.gate) (self.old.gate ≡ self.new.gate)) }
        ensures same { D.seen disk.new ≡ D.seen disk.old }
        ensures crash { (c : List ℕ) → D.may_leave disk.new c → D.may_leave disk.old c }
        ensures later { D.moment disk.old ≤ D.moment disk.new }
        ensures moments { (t : ℕ) (c : List ℕ) → t ≤ D.moment disk.old → D.left_since disk.new t c → D.left_since disk.old t c }
        ensures faults { CountsFaults (D.faults disk.old) (D.faults disk.new) result }
    {
        let gate = self.gate;
        let size = match self.read(disk, len) {
            Ok(Found::Closed) => return Ok(false),
            Ok(Found::Lacking) => return Err(StoreFault::Damaged(gate)),
            Ok(Found::Items(size)) => size,
            Err(Failed) => return Err(StoreFault::DiskFault),
        };
        match self.join(disk, size) {
            Ok(true) => Ok(true),
            Ok(false) => Err(StoreFault::Damaged(gate)),
            Err(Failed) => Err(StoreFault::DiskFault),
        }
    }

    /// Goes behind the records that follow.
    fn rest<D: Disk>(&mut self, disk: &mut D, len: u64) -> Result<(), StoreFault>
        requires len { IfSome (D.seen disk.old) (λ was. len ≡ length was) }
        ensures answers { IfSome (D.seen disk.old) (λ was. (j : JournalData) → IsAt (kept self.old) was j → ended j ≡ Is j → RestAnswers (kept self.new) was result) }
        ensures stop { self.new.stop ≡ self.old.stop }
        ensures same { D.seen disk.new ≡ D.seen disk.old }
        ensures crash { (c : List ℕ) → D.may_leave disk.new c → D.may_leave disk.old c }
        ensures later { D.moment disk.old ≤ D.moment disk.new }
        ensures moments { (t : ℕ) (c : List ℕ) → t ≤ D.moment disk.old → D.left_since disk.new t c → D.left_since disk.old t c }
        ensures faults { CountsFaults (D.faults disk.old) (D.faults disk.new) result }
    {
        let mut more = true;
        while more {
            match self.step(disk, len) {
                Ok(next) => more = next,
                Err(fault) => return Err(fault),
            }
        }
        Ok(())
    }

    /// Goes behind all records, behind a header.
    fn walk<D: Disk>(&mut self, disk: &mut D, len: u64) -> Result<(), StoreFault>
        requires len { IfSome (D.seen disk.old) (λ was. len ≡ length was) }
        ensures answers { IfSome (D.seen disk.old) (λ was. (j : JournalData) → IsAt (kept self.old) was j → j.records ≡ [] → WalkAnswers (kept self.new) was result) }
        ensures stop { self.new.stop ≡ self.old.stop }
        ensures same { D.seen disk.new ≡ D.seen disk.old }
        ensures crash { (c : List ℕ) → D.may_leave disk.new c → D.may_leave disk.old c }
        ensures later { D.moment disk.old ≤ D.moment disk.new }
        ensures moments { (t : ℕ) (c : List ℕ) → t ≤ D.moment disk.old → D.left_since disk.new t c → D.left_since disk.old t c }
        ensures faults { CountsFaults (D.faults disk.old) (D.faults disk.new) result }
    {
        match self.step(disk, len) {
            Ok(true) => self.rest(disk, len),
            Ok(false) => Err(StoreFault::NoStore),
            Err(fault) => Err(fault),
        }
    }

    /// A journal behind its header.
    pub(crate) fn begun(start: Start, buffer: Vec<u8>) -> Journal
        requires low { IsLowStart start }
        requires front { start.front ≤ longest_record + 5 }
        requires room { length buffer.items ≡ longest_record + 5 }
        ensures { kept result ≡ kept_start start }
    {
        let key = start.key;
        Journal {
            key,
            before: start.before,
            bounds: start.bounds,
            head_len: start.head_len,
            leaves: start.leaves,
            front: start.front,
            gate: start.front,
            stand: Standing {
                next: start.bounds.first,
                hash: start.before,
                prior: start.before,
                used: start.leaves,
                sealed: false,
                signed: None,
            },
            mark: None,
            stop: None,
            buffer,
        }
    }

    /// Reads the header from a disk of so many bytes.
    fn open<D: Disk>(alloc: Global, disk: &mut D, len: u64) -> Result<Journal, StoreFault>
        requires len { IfSome (D.seen disk.old) (λ was. len ≡ length was) }
        ensures answers { IfSome (D.seen disk.old) (λ was. OpenAnswers result was) }
        ensures stop { IfOk result (λ v. v.stop ≡ None) }
        ensures same { D.seen disk.new ≡ D.seen disk.old }
        ensures crash { (c : List ℕ) → D.may_leave disk.new c → D.may_leave disk.old c }
        ensures later { D.moment disk.old ≤ D.moment disk.new }
        ensures moments { (t : ℕ) (c : List ℕ) → t ≤ D.moment disk.old → D.left_since disk.new t c → D.left_since disk.old t c }
        ensures faults { CountsFaults (D.faults disk.old) (D.faults disk.new) result }
    {
        let Some(mut buffer) = zeros(alloc, (1 << 25) + 5) else {
            return Err(StoreFault::NoMemory);
        };
        match read_front(disk, &mut buffer) {
            Ok(Some(start)) => {
                if start.front >= len {
                    return Err(StoreFault::NoStore);
                }
                Ok(Journal::begun(start, buffer))
            }
            Ok(None) => Err(StoreFault::NoStore),
            Err(Failed) => Err(StoreFault::DiskFault),
        }
    }

    /// Opens the journal of a disk.
    pub fn attach<D: Disk>(alloc: Global, disk: &mut D) -> Result<Journal, StoreFault>
        ensures answers { IfSome (D.seen disk.old) (λ was. AttachAnswers result (D.may_leave disk.new) was) }
        ensures open { IfOk result (λ v. (kept v).stop ≡ None) }
        ensures same { D.seen disk.new ≡ D.seen disk.old }
        ensures crash { (c : List ℕ) → D.may_leave disk.new c → D.may_leave disk.old c }
        ensures later { D.moment disk.old ≤ D.moment disk.new }
        ensures moments { (t : ℕ) (c : List ℕ) → t ≤ D.moment disk.old → D.left_since disk.new t c → D.left_since disk.old t c }
        ensures faults { CountsFaults (D.faults disk.old) (D.faults disk.new) result }
    {
        let Ok(()) = disk.sync() else {
            return Err(StoreFault::DiskFault);
        };
        let Ok(len) = disk.len() else {
            return Err(StoreFault::DiskFault);
        };
        let mut journal = match Journal::open(alloc, disk, len) {
            Ok(journal) => journal,
            Err(fault) => return Err(fault),
        };
        match journal.walk(disk, len) {
            Ok(()) => Ok(journal),
            Err(fault) => Err(fault),
        }
    }

    /// Reads the items behind the gate at a place into the buffer.
    fn load<D: Disk>(&mut self, disk: &mut D, at: u64, len: u64) -> Result<Found, Failed>
        requires place { at < 2 ^ 30 }
        requires len { IfSome (D.seen disk.old) (λ was. len ≡ length was) }
        ensures found { IfOk result (λ f. IfSome (D.seen disk.old) (λ was. IsFound f at self.new.buffer.items (drop at was))) }
        ensures size { IfOk result (λ f. IsSized f at) }
        ensures kept { kept self.new ≡ kept self.old }
        ensures same { D.seen disk.new ≡ D.seen disk.old }
        ensures crash { (c : List ℕ) → D.may_leave disk.new c → D.may_leave disk.old c }
        ensures later { D.moment disk.old ≤ D.moment disk.new }
        ensures moments { (t : ℕ) (c : List ℕ) → t ≤ D.moment disk.old → D.left_since disk.new t c → D.left_since disk.old t c }
        ensures faults { Counts (D.faults disk.old) (D.faults disk.new) result }
    {
        read_record(disk, &mut self.buffer, at, len)
    }

    /// Reads the record at a cursor into the buffer, and gives how many bytes of items it has; None at the last gate.
    fn next_record<D: Disk>(
        &mut self,
        disk: &mut D,
        place: u64,
    ) -> Result<Option<usize>, StoreFault>
        ensures answers { IfSome (D.seen disk.old) (λ was. (i j : JournalData) → (o : IsAt (kept self.old) was j) → ended j ≡ Is j → IsCursor place o.front i
            → NextAnswers place o.front i j self.new.buffer.items result) }
        ensures size { IfOk result (λ o. IfSome o (λ n. n ≤ longest_record × (place + 5 + n < 2 ^ 30))) }
        ensures cause { IfErr result (λ e. e ≡ disk_fault) }
        ensures kept { kept self.new ≡ kept self.old }
        ensures same { D.seen disk.new ≡ D.seen disk.old }
        ensures crash { (c : List ℕ) → D.may_leave disk.new c → D.may_leave disk.old c }
        ensures later { D.moment disk.old ≤ D.moment disk.new }
        ensures moments { (t : ℕ) (c : List ℕ) → t ≤ D.moment disk.old → D.left_since disk.new t c → D.left_since disk.old t c }
        ensures faults { CountsFaults (D.faults disk.old) (D.faults disk.new) result }
    {
        if place >= self.gate {
            return Ok(None);
        }
        let Ok(len) = disk.len() else {
            return Err(StoreFault::DiskFault);
        };
        match self.load(disk, place, len) {
            Ok(Found::Items(size)) => Ok(Some(size)),
            Ok(Found::Closed) => Ok(None),
            Ok(Found::Lacking) => Ok(None),
            Err(Failed) => Err(StoreFault::DiskFault),
        }
    }

    /// A cursor in front of the journal's first item.
    pub fn start(&self) -> Cursor
        ensures cursor { IsLow (bounds_view self.now.bounds) (standing_view result.stand) }
        ensures parts { (was : List ℕ) (j : JournalData) → IsAt (kept self.now) was j → PartsLeft (kept self.now) was result j (part_items j) }
        ensures left { (was : List ℕ) (j : JournalData) → IsAt (kept self.now) was j → IsLeft (kept self.now) was result j (items_in j) }
    {
        Cursor {
            carried: self.bounds.first != 1,
            place: self.front,
            stand: Standing {
                next: self.bounds.first,
                hash: self.before,
                prior: self.before,
                used: self.leaves,
                sealed: false,
                signed: None,
            },
        }
    }

    /// Where the journal stands behind the items at the front of the buffer, from a cursor on; None where they don't continue it.
    fn behind_items(&self, cursor: &Cursor, size: usize) -> Option<Standing>
        requires cursor { IsLow (bounds_view self.now.bounds) (standing_view cursor.now.stand) }
        requires size { size ≤ longest_record }
        ensures value { option_map standing_view result ≡ continued_lem (bounds_view self.now.bounds) (standing_view cursor.now.stand) (take size self.now.buffer.items) }
        ensures low { IfSome result (λ s. IsLow (bounds_view self.now.bounds) (standing_view s)) }
    {
        continued(&self.bounds, &cursor.stand, &self.buffer[..size])
    }

    /// The items that the buffer holds.
    pub fn items(&self, held: Record) -> Items<'_>
        requires held { IsHeld self.now.bounds self.now.buffer.items held }
        ensures value { result ≡ held_items self.now.buffer.items held }
        ensures low { All (IsLowItem (most_leaves self.now.key)) result }
    {
        let bytes = &self.buffer[..held.size];
        if held.carried {
            Items::carriage(bytes, self.bounds, held.stand)
        } else {
            Items::new(bytes, self.bounds, held.stand)
        }
    }

    /// Reads the record at a cursor into the buffer, and moves the cursor behind it; None at the journal's end.
    fn next_parts<D: Disk>(
        &mut self,
        disk: &mut D,
        cursor: &mut Cursor,
    ) -> Result<Option<Record>, StoreFault>
        requires cursor { IsLow (bounds_view self.old.bounds) (standing_view cursor.old.stand) }
        ensures cursor { IsLow (bounds_view self.new.bounds) (standing_view cursor.new.stand) }
        ensures held { IfOk result (λ o. IfSome o (λ r. IsHeld self.new.bounds self.new.buffer.items r)) }
        ensures answers { IfSome (D.seen disk.old) (λ was. (j : JournalData) (left : List ItemData) → IsAt (kept self.old) was j → ended j ≡ Is j → PartsLeft (kept self.old) was cursor.old j left
            → PartsAnswers self.new.buffer.items (kept self.old) was cursor.new j left result) }
        ensures carried { cursor.new.carried ≡ cursor.old.carried }
        ensures goes { IfOk result (λ o. IfSome o (λ r. (cursor.old.place < cursor.new.place) × (cursor.old.place < 2 ^ 30))) }
        ensures cause { IfErr result (λ e. e ≡ disk_fault) }
        ensures kept { kept self.new ≡ kept self.old }
        ensures same { D.seen disk.new ≡ D.seen disk.old }
        ensures crash { (c : List ℕ) → D.may_leave disk.new c → D.may_leave disk.old c }
        ensures later { D.moment disk.old ≤ D.moment disk.new }
        ensures moments { (t : ℕ) (c : List ℕ) → t ≤ D.moment disk.old → D.left_since disk.new t c → D.left_since disk.old t c }
        ensures faults { CountsFaults (D.faults disk.old) (D.faults disk.new) result }
    {
        let size = match self.next_record(disk, cursor.place) {
            Ok(Some(size)) => size,
            Ok(None) => return Ok(None),
            Err(fault) => return Err(fault),
        };
        let Some(stand) = self.behind_items(cursor, size) else {
            return Ok(None);
        };
        let before = cursor.stand;
        cursor.place += 5 + size as u64;
        cursor.stand = stand;
        Ok(Some(Record {
            carried: false,
            size,
            stand: before,
        }))
    }

    /// Reads so many bytes from a place on into the buffer.
    pub(crate) fn fill<D: Disk>(&mut self, disk: &mut D, at: u64, size: usize) -> Result<(), Failed>
        requires room { size ≤ longest_record + 5 }
        ensures bytes { IfOk result (λ _. IfSome (D.seen disk.old) (λ was. at + size ≤ length was → take size self.new.buffer.items ≡ take size (drop at was))) }
        ensures kept { kept self.new ≡ kept self.old }
        ensures same { D.seen disk.new ≡ D.seen disk.old }
        ensures crash { (c : List ℕ) → D.may_leave disk.new c → D.may_leave disk.old c }
        ensures later { D.moment disk.old ≤ D.moment disk.new }
        ensures moments { (t : ℕ) (c : List ℕ) → t ≤ D.moment disk.old → D.left_since disk.new t c → D.left_since disk.old t c }
        ensures faults { Counts (D.faults disk.old) (D.faults disk.new) result }
    {
        read_bytes(disk, &mut self.buffer, at, size)
    }

    /// Reads the carried entries into the buffer, and moves the cursor behind them.
    fn carriage<D: Disk>(
        &mut self,
        disk: &mut D,
        cursor: &mut Cursor,
    ) -> Result<Option<Record>, StoreFault>
        requires carried { cursor.old.carried ≡ true }
        requires cursor { IsLow (bounds_view self.old.bounds) (standing_view cursor.old.stand) }
        ensures cursor { IsLow (bounds_view self.new.bounds) (standing_view cursor.new.stand) }
        ensures held { IfOk result (λ o. IfSome o (λ r. IsHeld self.new.bounds self.new.buffer.items r)) }
        ensures answers { IfSome (D.seen disk.old) (λ was. (j : JournalData) (left : List ItemData) → IsAt (kept self.old) was j → IsLeft (kept self.old) was cursor.old j left
            → ItemsAnswers self.new.buffer.items (kept self.old) was cursor.new j left result) }
        ensures goes { IfOk result (λ o. IfSome o (λ r. moves_left cursor.new < moves_left cursor.old)) }
        ensures cause { IfErr result (λ e. e ≡ disk_fault) }
        ensures kept { kept self.new ≡ kept self.old }
        ensures same { D.seen disk.new ≡ D.seen disk.old }
        ensures crash { (c : List ℕ) → D.may_leave disk.new c → D.may_leave disk.old c }
        ensures later { D.moment disk.old ≤ D.moment disk.new }
        ensures moments { (t : ℕ) (c : List ℕ) → t ≤ D.moment disk.old → D.left_since disk.new t c → D.left_since disk.old t c }
        ensures faults { CountsFaults (D.faults disk.old) (D.faults disk.new) result }
    {
        let at = 113 + self.head_len as u64 + 4096 * self.bounds.pages as u64;
        let size = (self.front - at) as usize;
        let Ok(()) = self.fill(disk, at, size) else {
            return Err(StoreFault::DiskFault);
        };
        if !is_carriage(&self.buffer[..size], self.bounds.first, self.leaves) {
            return Ok(None);
        }
        cursor.carried = false;
        Ok(Some(Record {
            carried: true,
            size,
            stand: cursor.stand,
        }))
    }

    /// Reads the items at a cursor into the buffer, the carried entries first and then record by record, and moves the cursor
    /// behind them; None at the journal's end. `items` shows what it read.
    pub fn advance<D: Disk>(
        &mut self,
        disk: &mut D,
        cursor: &mut Cursor,
    ) -> Result<Option<Record>, StoreFault>
        requires cursor { IsLow (bounds_view self.old.bounds) (standing_view cursor.old.stand) }
        ensures cursor { IsLow (bounds_view self.new.bounds) (standing_view cursor.new.stand) }
        ensures held { IfOk result (λ o. IfSome o (λ r. IsHeld self.new.bounds self.new.buffer.items r)) }
        ensures answers { IfSome (D.seen disk.old) (λ was. (j : JournalData) (left : List ItemData) → IsAt (kept self.old) was j → ended j ≡ Is j → IsLeft (kept self.old) was cursor.old j left
            → ItemsAnswers self.new.buffer.items (kept self.old) was cursor.new j left result) }
        ensures goes { IfOk result (λ o. IfSome o (λ r. moves_left cursor.new < moves_left cursor.old)) }
        ensures cause { IfErr result (λ e. e ≡ disk_fault) }
        ensures kept { kept self.new ≡ kept self.old }
        ensures same { D.seen disk.new ≡ D.seen disk.old }
        ensures crash { (c : List ℕ) → D.may_leave disk.new c → D.may_leave disk.old c }
        ensures later { D.moment disk.old ≤ D.moment disk.new }
        ensures moments { (t : ℕ) (c : List ℕ) → t ≤ D.moment disk.old → D.left_since disk.new t c → D.left_since disk.old t c }
        ensures faults { CountsFaults (D.faults disk.old) (D.faults disk.new) result }
    {
        if cursor.carried {
            return self.carriage(disk, cursor);
        }
        self.next_parts(disk, cursor)
    }

    /// Seeks an entry in the record at a cursor, and moves the cursor behind it.
    fn seek<D: Disk>(
        &mut self,
        disk: &mut D,
        cursor: &mut Cursor,
        number: u64,
    ) -> Result<Seek, Failed>
        requires cursor { IsLow (bounds_view self.old.bounds) (standing_view cursor.old.stand) }
        ensures cursor { IsLow (bounds_view self.new.bounds) (standing_view cursor.new.stand) }
        ensures answers { IfOk result (λ s. IfSome (D.seen disk.old) (λ was. (j : JournalData) (left : List ItemData) → IsAt (kept self.old) was j → ended j ≡ Is j → PartsLeft (kept self.old) was cursor.old j left
            → SeekAnswers (kept self.old) was cursor.new j number left s)) }
        ensures goes { IfOk result (λ s. GoesOn s cursor.old.place cursor.new.place) }
        ensures kept { kept self.new ≡ kept self.old }
        ensures same { D.seen disk.new ≡ D.seen disk.old }
        ensures crash { (c : List ℕ) → D.may_leave disk.new c → D.may_leave disk.old c }
        ensures later { D.moment disk.old ≤ D.moment disk.new }
        ensures moments { (t : ℕ) (c : List ℕ) → t ≤ D.moment disk.old → D.left_since disk.new t c → D.left_since disk.old t c }
        ensures faults { Counts (D.faults disk.old) (D.faults disk.new) result }
    {
        let held = match self.next_parts(disk, cursor) {
            Ok(Some(held)) => held,
            Ok(None) => return Ok(Seek::Ended),
            Err(_) => return Err(Failed),
        };
        match find_snap(self.items(held), number) {
            Some(is_snap) => Ok(Seek::Found(is_snap)),
            None => Ok(Seek::Passed),
        }
    }
}
