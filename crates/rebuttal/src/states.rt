// A journal's state at an entry, beside the evidence's.
ghost use Rattle.std.specs.Prelude.{◌≡◌, [], None, IfOk, IfSome, MatchOption, length};
ghost use Rattle.avm_model.specs.Pages.{sha_hashes, root_of};
ghost use Rattle.honest_model.specs.Honest.{IsFaultFrom};
ghost use Rattle.journal_model.specs.Journal.{entries};
ghost use Rattle.jrnl_store.specs.Kept.{kept};
ghost use Rattle.page_tree.specs.Nodes.{IsTree, at};
ghost use Rattle.rebut_model.specs.Texts.{state_at};
ghost use Rattle.rebuttal.specs.Compared.{AreCompared, SegmentCompared};
ghost use Rattle.seg_file.specs.Views.{segment_view};
ghost use Rattle.rebut_judge.specs.Going.{GoneTo};
ghost use Rattle.rebut_pass.specs.Reads.{OnlyReads, ReadCounts, OfState};
ghost use Rattle.state_replay.specs.Starting.{TellsState};

use crate::starting::header_machine;
use avm_num::NoMemory;
use avm_outside::Disk;
use guest_machine::Machine;
use jrnl_store::Journal;
use page_tree::Tree;
use rebut_judge::{Going, Judge};
use rebut_pass::{ReadFault, read_all};
use rebut_texts::{Found, compare_states, renew};
use seg_file::Segment;
use state_replay::machine_from;
use std::alloc::Global;

/// In front of a journal's first item.
fn begin(journal: &Journal, machine: Machine, tree: Tree, number: u64) -> Going
    requires tree { IsTree sha_hashes machine.state.ram (length machine.dirty) tree }
    requires root { at tree 1 ≡ root_of sha_hashes machine.state.ram }
    ensures gone { GoneTo machine.state (kept journal.now).bounds.first [] result }
    ensures number { result.number ≡ number }
{
    Going {
        judge: Judge::new(machine, tree, journal.first()),
        number,
        begun: false,
        past: false,
    }
}

/// The machine that a replay has come to, and the tree of its pages.
fn machine_of_replay(going: Going) -> (Machine, Tree)
    ensures state { result.0.state ≡ going.judge.replay.stand.state }
    ensures tree { IsTree sha_hashes result.0.state.ram (length result.0.dirty) result.1 }
    ensures root { at result.1 1 ≡ root_of sha_hashes result.0.state.ram }
{
    let (mut machine, mut tree) = going.judge.replay.into_parts();
    renew(&mut machine, &mut tree);
    (machine, tree)
}

/// The machine of a journal that replays at the entry of a number, and the tree of its pages.
fn machine_at<D: Disk>(
    alloc: Global,
    journal: &mut Journal,
    disk: &mut D,
    number: u64,
) -> Result<Option<(Machine, Tree)>, ReadFault>
    ensures state { IfOk result (λ o. OfState (D.seen disk.old) (kept journal.old) (λ s j. IsFaultFrom j.header.first s (entries j) None → MatchOption o ⊥ (λ p. p.0.state ≡ state_at s number (entries j)))) }
    ensures tree { IfOk result (λ o. IfSome o (λ p. IsTree sha_hashes p.0.state.ram (length p.0.dirty) p.1)) }
    ensures root { IfOk result (λ o. IfSome o (λ p. at p.1 1 ≡ root_of sha_hashes p.0.state.ram)) }
    ensures kept { kept journal.new ≡ kept journal.old }
    ensures reads { OnlyReads D.seen D.may_leave D.moment D.left_since disk.old disk.new }
    ensures faults { ReadCounts (D.faults disk.old) (D.faults disk.new) result }
{
    let (machine, tree) = match header_machine(alloc, journal, disk) {
        Ok(Some(parts)) => parts,
        Ok(None) => return Ok(None),
        Err(fault) => return Err(fault),
    };
    let mut going = begin(journal, machine, tree, number);
    match read_all(alloc, journal, disk, &mut going) {
        Ok(()) => Ok(Some(machine_of_replay(going))),
        Err(fault) => Err(fault),
    }
}

/// The first texts of two states that differ; None also where a clock is pending in the first.
fn compared(
    alloc: Global,
    ours: (Machine, Tree),
    theirs: (Machine, Tree),
) -> Result<Option<Found>, NoMemory>
    requires tree { IsTree sha_hashes ours.0.state.ram (length ours.0.dirty) ours.1 }
    requires root { at ours.1 1 ≡ root_of sha_hashes ours.0.state.ram }
    requires their_clock { theirs.0.state.devices.clock ≡ None }
    requires their_tree { IsTree sha_hashes theirs.0.state.ram (length theirs.0.dirty) theirs.1 }
    requires their_root { at theirs.1 1 ≡ root_of sha_hashes theirs.0.state.ram }
    ensures { IfOk result (λ r. ours.0.state.devices.clock ≡ None → AreCompared ours.0.state theirs.0.state r) }
{
    let (our_machine, our_tree) = ours;
    let (their_machine, their_tree) = theirs;
    if our_machine.devices().pending() {
        return Ok(None);
    }
    compare_states(alloc, &our_machine, &our_tree, &their_machine, &their_tree)
}

/// The first texts of a journal's state at a segment's first entry and of the segment's state that differ.
pub fn differing_states<D: Disk>(
    alloc: Global,
    journal: &mut Journal,
    disk: &mut D,
    parts: &Segment<'_>,
) -> Result<Option<Found>, ReadFault>
    requires theirs { TellsState parts.now.head.now parts.now.pages.now }
    ensures value { IfOk result (λ r. OfState (D.seen disk.old) (kept journal.old) (λ s j. SegmentCompared s j (segment_view parts.now) r)) }
    ensures kept { kept journal.new ≡ kept journal.old }
    ensures reads { OnlyReads D.seen D.may_leave D.moment D.left_since disk.old disk.new }
    ensures faults { ReadCounts (D.faults disk.old) (D.faults disk.new) result }
{
    let theirs = machine_from(alloc, parts.head, parts.pages)?;
    let ours = match machine_at(alloc, journal, disk, parts.start) {
        Ok(Some(ours)) => ours,
        Ok(None) => return Ok(None),
        Err(fault) => return Err(fault),
    };
    match compared(alloc, ours, theirs) {
        Ok(found) => Ok(found),
        Err(_) => Err(ReadFault::NoMemory),
    }
}
