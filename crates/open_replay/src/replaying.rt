//! The second reading of a journal: the replay from its base.

ghost use Rattle.std.specs.Prelude.{◌≡◌, IfOk, true};
ghost use Rattle.avm_model.specs.Head.{HeadData};
ghost use Rattle.avm_model.specs.HeadReading.{head_of};
ghost use Rattle.avm_model.specs.HeadState.{state_of};
ghost use Rattle.journal_model.specs.Header.{most_leaves};
ghost use Rattle.jrnl_store.specs.Kept.{kept};
ghost use Rattle.keep_judge.specs.Good.{pages_fit};
ghost use Rattle.rebut_judge.specs.Judging.{judge_view};
ghost use Rattle.rebut_pass.specs.Reads.{OfJournal, OnlyReads, ReadCounts};
ghost use Rattle.open_replay.specs.Replayed.{AreRun, IsReplayed, Starts};

use crate::run::Run;
use crate::searching::search;
use avm_num::{NoMemory, Room};
use avm_outside::Disk;
use jrnl_store::Journal;
use open_keeps::Base;
use open_pass::{Tickets, read_all};
use page_tree::Tree;
use rebut_judge::Judge;
use rebut_pass::ReadFault;
use rv32_mem::Ram;
use snap_state::machine_of;
use std::alloc::Global;

/// What both readings of a journal tell: the tickets, the RAM of all its keeps, and the replay.
#[derive(Drop)]
pub struct Replayed {
    pub tickets: Tickets,
    pub ram: Ram,
    pub run: Run,
}

/// The judge of the entries behind a base.
fn judge_of(alloc: Global, base: Base, first: u64) -> Result<Judge, NoMemory>
    ensures { IfOk result (λ j. (b : HeadData) → head_of base.head.bytes ≡ Some b → Starts (state_of b base.ram.bytes) first base.keeps (judge_view j)) }
{
    let keeps = base.keeps;
    let head = base.head;
    let mut ram = base.ram;
    let tree = Tree::build(alloc, &mut ram)?;
    let machine = machine_of(alloc, head.bytes(), ram)?;
    let mut judge = Judge::new(machine, tree, first);
    judge.begun = keeps > 0;
    Ok(judge)
}

/// Judges the entries of a journal behind so many keeps.
fn run<D: Disk>(
    alloc: Global,
    journal: &mut Journal,
    disk: &mut D,
    judge: Judge,
    keeps: u64,
) -> Result<Run, ReadFault>
    ensures run { IfOk result (λ r. OfJournal (D.seen disk.old) (kept journal.old) (λ j. AreRun j keeps judge r)) }
    ensures kept { kept journal.new ≡ kept journal.old }
    ensures reads { OnlyReads D.seen D.may_leave D.moment D.left_since disk.old disk.new }
    ensures faults { ReadCounts (D.faults disk.old) (D.faults disk.new) result }
{
    let mut run = Run {
        judge,
        key: journal.key(),
        skip: keeps,
        begun: keeps > 0,
        snaps: false,
    };
    match read_all(alloc, journal, disk, &mut run) {
        Ok(()) => Ok(run),
        Err(fault) => Err(fault),
    }
}

/// What both readings tell.
fn both(tickets: Tickets, ram: Ram, run: Run) -> Replayed
    ensures tickets { result.tickets ≡ tickets }
    ensures ram { result.ram ≡ ram }
    ensures run { result.run ≡ run }
{
    Replayed { tickets, ram, run }
}

/// Reads a journal whose header has this head: its tickets and its base, and then the entries behind that, which are replayed.
pub fn replay<D: Disk>(
    alloc: Global,
    journal: &mut Journal,
    disk: &mut D,
    head: Room,
) -> Result<Replayed, ReadFault>
    requires fits { pages_fit (kept journal.old).bounds.pages (head_of head.bytes) ≡ true }
    requires room { head.capacity ≡ 16384 }
    ensures replayed { IfOk result (λ r. OfJournal (D.seen disk.old) (kept journal.old) (λ j. head.bytes ≡ j.header.head → IsReplayed j r)) }
    ensures most { IfOk result (λ r. most_leaves r.tickets.key ≡ most_leaves (kept journal.old).key) }
    ensures kept { kept journal.new ≡ kept journal.old }
    ensures reads { OnlyReads D.seen D.may_leave D.moment D.left_since disk.old disk.new }
    ensures faults { ReadCounts (D.faults disk.old) (D.faults disk.new) result }
{
    let search = match search(alloc, journal, disk, head) {
        Ok(search) => search,
        Err(fault) => return Err(fault),
    };
    let tickets = search.tickets;
    let first = search.first;
    let now = search.now;
    let base = search.base;
    base.ram.pages();
    let keeps = base.keeps;
    let judge = match judge_of(alloc, base, first) {
        Ok(judge) => judge,
        Err(_) => return Err(ReadFault::NoMemory),
    };
    let ram = now.ram;
    match run(alloc, journal, disk, judge, keeps) {
        Ok(run) => Ok(both(tickets, ram, run)),
        Err(fault) => Err(fault),
    }
}
