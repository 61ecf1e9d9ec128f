//! The first reading of a journal: its base for a number.

ghost use Rattle.std.specs.Prelude.{◌≡◌, [], IfOk, IsTrue, length, true};
ghost use Rattle.avm_model.specs.HeadReading.{head_of};
ghost use Rattle.avm_model.specs.Memory.{is_page_count};
ghost use Rattle.journal_model.specs.Header.{most_leaves};
ghost use Rattle.journal_model.specs.Journal.{JournalData, parts};
ghost use Rattle.jrnl_store.specs.Kept.{kept};
ghost use Rattle.jrnl_store.specs.Own.{AreKept};
ghost use Rattle.keep_judge.specs.Good.{pages_fit};
ghost use Rattle.open_keeps.specs.Search.{IsSought};
ghost use Rattle.rebut_pass.specs.Reads.{OfJournal, OnlyReads, ReadCounts};

use avm_num::{NoMemory, Room};
use avm_outside::Disk;
use jrnl_store::Journal;
use keep_judge::{Paged, bare_machine};
use open_keeps::{Base, Search};
use open_pass::{Tickets, read_all};
use page_tree::Tree;
use rebut_pass::ReadFault;
use rv32_mem::Ram;
use std::alloc::Global;

/// Reads the pages of a journal's header.
fn header_ram<D: Disk>(alloc: Global, journal: &mut Journal, disk: &mut D) -> Result<Ram, ReadFault>
    requires power { IsTrue (is_page_count (kept journal.old).bounds.pages) }
    ensures pages { IfOk result (λ ram. OfJournal (D.seen disk.old) (kept journal.old) (λ j. ram.bytes ≡ j.header.pages)) }
    ensures count { IfOk result (λ ram. length ram.dirty ≡ (kept journal.old).bounds.pages) }
    ensures kept { kept journal.new ≡ kept journal.old }
    ensures reads { OnlyReads D.seen D.may_leave D.moment D.left_since disk.old disk.new }
    ensures faults { ReadCounts (D.faults disk.old) (D.faults disk.new) result }
{
    let mut ram = Ram::new(alloc, journal.page_count())?;
    match journal.pages(disk, &mut ram) {
        Ok(()) => Ok(ram),
        Err(_) => Err(ReadFault::DiskFault),
    }
}

/// A RAM with the same bytes.
fn copy(alloc: Global, ram: &Ram) -> Result<Ram, NoMemory>
    ensures bytes { IfOk result (λ r. r.bytes ≡ ram.now.bytes) }
    ensures count { IfOk result (λ r. length r.dirty ≡ length ram.now.dirty) }
{
    let mut other = Ram::new(alloc, ram.pages())?;
    other.put(0, ram.bytes());
    Ok(other)
}

/// A RAM with the tree of its pages.
#[tactic(auto, using(page_tree::proofs::Kept::tree_stale))]
fn paged(alloc: Global, ram: Ram) -> Result<Paged, NoMemory>
    ensures bytes { IfOk result (λ p. p.ram.bytes ≡ ram.bytes) }
    ensures count { IfOk result (λ p. length p.ram.dirty ≡ length ram.dirty) }
{
    let mut ram = ram;
    let tree = Tree::build(alloc, &mut ram)?;
    Ok(Paged { ram, tree })
}

/// The search for a number's base in front of a journal's first item. `head` and `ram` are those of its header.
fn start(
    alloc: Global,
    journal: &Journal,
    head: Room,
    ram: Ram,
    number: u64,
) -> Result<Search, NoMemory>
    requires fits { pages_fit (kept journal.now).bounds.pages (head_of head.bytes) ≡ true }
    requires room { head.capacity ≡ 16384 }
    requires count { length ram.dirty ≡ (kept journal.now).bounds.pages }
    ensures sought { IfOk result (λ s. (j : JournalData) → AreKept (kept journal.now) j → head.bytes ≡ j.header.head → ram.bytes ≡ j.header.pages → IsSought j.header number [] s) }
    ensures key { IfOk result (λ s. s.tickets.key ≡ (kept journal.now).key) }
    ensures count { IfOk result (λ s. length s.now.ram.dirty ≡ (kept journal.now).bounds.pages) }
{
    let own = bare_machine(alloc, head.bytes(), journal.page_count())?;
    let pages = copy(alloc, &ram)?;
    let now = paged(alloc, ram)?;
    Ok(Search {
        tickets: Tickets::new(journal),
        own,
        first: journal.first(),
        last: number,
        now,
        told: None,
        keeps: 0,
        base: Base {
            head,
            ram: pages,
            keeps: 0,
        },
    })
}

/// Reads all items of a journal whose header has this head, and finds the base for a number.
pub fn search<D: Disk>(
    alloc: Global,
    journal: &mut Journal,
    disk: &mut D,
    head: Room,
    number: u64,
) -> Result<Search, ReadFault>
    requires fits { pages_fit (kept journal.old).bounds.pages (head_of head.bytes) ≡ true }
    requires room { head.capacity ≡ 16384 }
    ensures sought { IfOk result (λ s. OfJournal (D.seen disk.old) (kept journal.old) (λ j. head.bytes ≡ j.header.head → IsSought j.header number (parts j) s)) }
    ensures kept { kept journal.new ≡ kept journal.old }
    ensures reads { OnlyReads D.seen D.may_leave D.moment D.left_since disk.old disk.new }
    ensures faults { ReadCounts (D.faults disk.old) (D.faults disk.new) result }
{
    let ram = match header_ram(alloc, journal, disk) {
        Ok(ram) => ram,
        Err(fault) => return Err(fault),
    };
    let mut search = match start(alloc, journal, head, ram, number) {
        Ok(search) => search,
        Err(_) => return Err(ReadFault::NoMemory),
    };
    match read_all(alloc, journal, disk, &mut search) {
        Ok(()) => Ok(search),
        Err(fault) => Err(fault),
    }
}
