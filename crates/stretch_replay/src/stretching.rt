//! The second reading of a journal: the replay from a number's base up to that number.

ghost use Rattle.std.specs.Prelude.{◌≡◌, IfOk, true};
ghost use Rattle.avm_model.specs.Head.{HeadData};
ghost use Rattle.avm_model.specs.HeadReading.{head_of};
ghost use Rattle.avm_model.specs.HeadState.{state_of};
ghost use Rattle.jrnl_store.specs.Kept.{kept};
ghost use Rattle.keep_judge.specs.Good.{pages_fit};
ghost use Rattle.open_replay.specs.Replayed.{Starts};
ghost use Rattle.rebut_judge.specs.Judging.{judge_view};
ghost use Rattle.rebut_pass.specs.Reads.{OfJournal, OnlyReads, ReadCounts};
ghost use Rattle.stretch_replay.specs.Running.{AreRun};
ghost use Rattle.stretch_replay.specs.Stretched.{IsStretched};

use crate::run::Run;
use crate::searching::search;
use avm_num::{NoMemory, Room};
use avm_outside::Disk;
use guest_machine::Machine;
use jrnl_store::Journal;
use open_keeps::Base;
use open_pass::read_all;
use page_tree::Tree;
use rebut_judge::Judge;
use rebut_pass::ReadFault;
use snap_state::machine_of;
use std::alloc::Global;

/// What the entries behind a number's base come to, up to that number: the number of the first that doesn't replay, or none, and
/// then the machine behind them.
#[derive(Drop)]
pub struct Stretched {
    pub fault: Option<u64>,
    pub machine: Machine,
}

/// The judge of the entries behind a base.
fn judge_of(alloc: Global, base: Base, first: u64) -> Result<Judge, NoMemory>
    ensures { IfOk result (λ j. (b : HeadData) → head_of base.head.bytes ≡ Some b → Starts (state_of b base.ram.bytes) first base.keeps (judge_view j)) }
{
    let keeps = base.keeps;
    let head = base.head;
    let mut ram = base.ram;
    let tree = Tree::build(alloc, &mut ram)?;
    let machine = machine_of(alloc, head.bytes(), ram)?;
    let mut judge = Judge::new(machine, tree, first);
    judge.begun = keeps > 0;
    Ok(judge)
}

/// Judges the entries of a journal behind so many keeps, up to a number.
fn run<D: Disk>(
    alloc: Global,
    journal: &mut Journal,
    disk: &mut D,
    judge: Judge,
    keeps: u64,
    number: u64,
) -> Result<Run, ReadFault>
    ensures run { IfOk result (λ r. OfJournal (D.seen disk.old) (kept journal.old) (λ j. AreRun j number keeps judge r)) }
    ensures kept { kept journal.new ≡ kept journal.old }
    ensures reads { OnlyReads D.seen D.may_leave D.moment D.left_since disk.old disk.new }
    ensures faults { ReadCounts (D.faults disk.old) (D.faults disk.new) result }
{
    let mut run = Run {
        judge,
        key: journal.key(),
        number,
        skip: keeps,
        past: false,
    };
    match read_all(alloc, journal, disk, &mut run) {
        Ok(()) => Ok(run),
        Err(fault) => Err(fault),
    }
}

/// What a replay has come to.
fn end(run: Run) -> Stretched
    ensures fault { result.fault ≡ run.judge.fault }
    ensures state { result.machine.state ≡ run.judge.replay.stand.state }
{
    let judge = run.judge;
    let fault = judge.fault;
    let replay = judge.replay;
    let (machine, _) = replay.into_parts();
    Stretched { fault, machine }
}

/// Reads a journal whose header has this head: its last good keep of a number at most this one, or else its header, and the
/// entries behind that up to the number, which are replayed.
pub fn stretch<D: Disk>(
    alloc: Global,
    journal: &mut Journal,
    disk: &mut D,
    head: Room,
    number: u64,
) -> Result<Stretched, ReadFault>
    requires fits { pages_fit (kept journal.old).bounds.pages (head_of head.bytes) ≡ true }
    requires room { head.capacity ≡ 16384 }
    ensures stretched { IfOk result (λ r. OfJournal (D.seen disk.old) (kept journal.old) (λ j. head.bytes ≡ j.header.head → IsStretched j number r)) }
    ensures kept { kept journal.new ≡ kept journal.old }
    ensures reads { OnlyReads D.seen D.may_leave D.moment D.left_since disk.old disk.new }
    ensures faults { ReadCounts (D.faults disk.old) (D.faults disk.new) result }
{
    let search = match search(alloc, journal, disk, head, number) {
        Ok(search) => search,
        Err(fault) => return Err(fault),
    };
    let first = search.first;
    let base = search.base;
    base.ram.pages();
    let keeps = base.keeps;
    let judge = match judge_of(alloc, base, first) {
        Ok(judge) => judge,
        Err(_) => return Err(ReadFault::NoMemory),
    };
    match run(alloc, journal, disk, judge, keeps, number) {
        Ok(run) => Ok(end(run)),
        Err(fault) => Err(fault),
    }
}
