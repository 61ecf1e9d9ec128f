// A store that is opened, and listed.
ghost use Rattle.std.specs.Prelude.{◌≡◌, ◌≤◌, ℕ, List, IfOk, IfErr, IfSome, is_some};
ghost use Rattle.avm_model.specs.HeadReading.{head_of};
ghost use Rattle.journal_model.specs.Journal.{JournalData};
ghost use Rattle.jrnl_store.specs.Kept.{kept};
ghost use Rattle.jrnl_store.specs.Own.{IsAt};
ghost use Rattle.list_command.specs.Listing.{CountsDisk, IsOpened, IsOfStore, Leaves, PrintsOf, all_lines, refusal_of};

use crate::End;
use crate::listing::print_items;
use crate::printing::print_mark;
use avm_num::Room;
use avm_outside::{Disk, Sink};
use command_parts::Fault;
use jrnl_store::{Journal, StoreFault};
use snap_state::read_head;
use std::alloc::Global;

// Why a store can't be opened, as an end.
fn refusal(fault: StoreFault) -> Result<End, Fault>
    ensures { result ≡ refusal_of fault }
{
    match fault {
        StoreFault::NoMemory => Err(Fault::NoMemory),
        StoreFault::DiskFault => Err(Fault::Disk),
        StoreFault::Damaged(place) => Ok(End::RefusedDamaged(place)),
        _ => Ok(End::RefusedNoStore),
    }
}

// Whether the header's head is one.
fn has_head<D: Disk>(alloc: Global, journal: &mut Journal, disk: &mut D) -> Result<bool, Fault>
    ensures head { IfOk result (λ b. IfSome (D.seen disk.old) (λ was. (j : JournalData) → IsAt (kept journal.old) was j → b ≡ is_some (head_of j.header.head))) }
    ensures cause { IfErr result IsOfStore }
    ensures kept { kept journal.new ≡ kept journal.old }
    ensures same { D.seen disk.new ≡ D.seen disk.old }
    ensures crash { (c : List ℕ) → D.may_leave disk.new c → D.may_leave disk.old c }
    ensures later { D.moment disk.old ≤ D.moment disk.new }
    ensures moments { (t : ℕ) (c : List ℕ) → t ≤ D.moment disk.old → D.left_since disk.new t c → D.left_since disk.old t c }
    ensures faults { CountsDisk (D.faults disk.old) (D.faults disk.new) result }
{
    let mut head = Room::new(alloc, 1 << 14)?;
    match journal.head(disk, &mut head) {
        Ok(()) => Ok(read_head(head.bytes())),
        Err(_) => Err(Fault::Disk),
    }
}

// Prints the lines of a journal whose header has a head.
fn print_journal<D: Disk, S: Sink>(
    alloc: Global,
    journal: &mut Journal,
    disk: &mut D,
    out: &mut S,
) -> Result<(), Fault>
    ensures lines { PrintsOf all_lines (kept journal.old) (D.seen disk.old) result (S.faults out.old) (S.faults out.new) (S.written out.old) (S.written out.new) }
    ensures same { D.seen disk.new ≡ D.seen disk.old }
    ensures crash { (c : List ℕ) → D.may_leave disk.new c → D.may_leave disk.old c }
    ensures later { D.moment disk.old ≤ D.moment disk.new }
    ensures moments { (t : ℕ) (c : List ℕ) → t ≤ D.moment disk.old → D.left_since disk.new t c → D.left_since disk.old t c }
    ensures faults { CountsDisk (D.faults disk.old) (D.faults disk.new) result }
{
    if let Err(fault) = print_items(alloc, journal, disk, out) {
        return Err(fault);
    }
    print_mark(alloc, journal.retired(), out)
}

// Lists a journal that was opened.
fn list_journal<D: Disk, S: Sink>(
    alloc: Global,
    journal: Journal,
    disk: &mut D,
    out: &mut S,
) -> Result<End, Fault>
    requires opened { IfSome (D.seen disk.old) (IsOpened (kept journal)) }
    ensures leaves { Leaves (D.seen disk.old) result (S.faults out.old) (S.faults out.new) (S.written out.old) (S.written out.new) }
    ensures same { D.seen disk.new ≡ D.seen disk.old }
    ensures crash { (c : List ℕ) → D.may_leave disk.new c → D.may_leave disk.old c }
    ensures later { D.moment disk.old ≤ D.moment disk.new }
    ensures moments { (t : ℕ) (c : List ℕ) → t ≤ D.moment disk.old → D.left_since disk.new t c → D.left_since disk.old t c }
    ensures faults { CountsDisk (D.faults disk.old) (D.faults disk.new) result }
{
    let mut journal = journal;
    match has_head(alloc, &mut journal, disk) {
        Ok(true) => {}
        Ok(false) => return Ok(End::RefusedNoStore),
        Err(fault) => return Err(fault),
    }
    match print_journal(alloc, &mut journal, disk, out) {
        Ok(()) => Ok(End::Listed),
        Err(fault) => Err(fault),
    }
}

/// Opens a store, and prints the lines of its journal.
pub fn list_store<D: Disk, S: Sink>(alloc: Global, disk: &mut D, out: &mut S) -> Result<End, Fault>
    ensures leaves { Leaves (D.seen disk.old) result (S.faults out.old) (S.faults out.new) (S.written out.old) (S.written out.new) }
    ensures same { D.seen disk.new ≡ D.seen disk.old }
    ensures crash { (c : List ℕ) → D.may_leave disk.new c → D.may_leave disk.old c }
    ensures later { D.moment disk.old ≤ D.moment disk.new }
    ensures moments { (t : ℕ) (c : List ℕ) → t ≤ D.moment disk.old → D.left_since disk.new t c → D.left_since disk.old t c }
    ensures faults { CountsDisk (D.faults disk.old) (D.faults disk.new) result }
{
    match Journal::attach(alloc, disk) {
        Ok(journal) => list_journal(alloc, journal, disk, out),
        Err(fault) => refusal(fault),
    }
}
