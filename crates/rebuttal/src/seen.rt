// What one reading of a journal tells of evidence.
ghost use Rattle.std.specs.Prelude.{◌≡◌, [], IfOk, MatchOption, length, option_map};
ghost use Rattle.avm_model.specs.Pages.{sha_hashes, root_of};
ghost use Rattle.evid_file.specs.Views.{evidence_view};
ghost use Rattle.jrnl_store.specs.Kept.{kept};
ghost use Rattle.page_tree.specs.Nodes.{IsTree, at};
ghost use Rattle.rebut_texts.specs.Found.{found_view};
ghost use Rattle.rebut_texts.specs.Walk.{walk_view, finds};
ghost use Rattle.rebut_pass.specs.Reads.{OnlyReads, ReadCounts, OfState};
ghost use Rattle.rebuttal.specs.Seen.{IsSeen};
ghost use Rattle.rebuttal.specs.Starts.{IsStart};

use crate::evidence::{entries_of, first_auth, second_auth};
use crate::starting::header_machine;
use avm_outside::Disk;
use evid_file::Evidence;
use guest_machine::Machine;
use jrnl_store::Journal;
use page_tree::Tree;
use rebut_judge::{Judge, Reading};
use rebut_pass::{ReadFault, Sought, read_all};
use rebut_texts::{Found, Walk};
use std::alloc::Global;

/// What one reading of a journal tells of evidence: the first entry that doesn't replay, whether its authenticators are bound, and
/// the first texts of entries that differ.
#[derive(Drop)]
pub struct Seen {
    pub fault: Option<u64>,
    pub one: bool,
    pub two: bool,
    pub found: Option<Found>,
}

/// A reading in front of a journal's first item.
fn begin<'a>(
    journal: &Journal,
    machine: Machine,
    tree: Tree,
    evidence: &Evidence<'a>,
) -> Reading<'a>
    requires tree { IsTree sha_hashes machine.state.ram (length machine.dirty) tree }
    requires root { at tree 1 ≡ root_of sha_hashes machine.state.ram }
    ensures { IsStart (kept journal.now) machine.state (evidence_view evidence.now) result }
{
    let told = entries_of(evidence);
    Reading {
        judge: Judge::new(machine, tree, journal.first()),
        one: Sought::new(journal, &first_auth(evidence)),
        two: Sought::new(journal, &second_auth(evidence)),
        walk: Walk::new(told.start, &journal.before(), &told.before, told.frames),
    }
}

/// What a reading has read.
fn seen_by(reading: Reading<'_>) -> Seen
    ensures fault { result.fault ≡ reading.entry.judge.fault }
    ensures one { result.one ≡ reading.entry.one.found }
    ensures two { result.two ≡ reading.entry.two.found }
    ensures found { option_map found_view result.found ≡ finds (walk_view reading.entry.walk) [] }
{
    Seen {
        fault: reading.judge.fault,
        one: reading.one.found,
        two: reading.two.found,
        found: reading.walk.found(),
    }
}

/// Reads a journal once, beside evidence; None where its header's head isn't one.
pub fn see<D: Disk>(
    alloc: Global,
    journal: &mut Journal,
    disk: &mut D,
    evidence: &Evidence<'_>,
) -> Result<Option<Seen>, ReadFault>
    ensures seen { IfOk result (λ o. OfState (D.seen disk.old) (kept journal.old) (λ s j. MatchOption o ⊥ (IsSeen s j (evidence_view evidence.now)))) }
    ensures kept { kept journal.new ≡ kept journal.old }
    ensures reads { OnlyReads D.seen D.may_leave D.moment D.left_since disk.old disk.new }
    ensures faults { ReadCounts (D.faults disk.old) (D.faults disk.new) result }
{
    let (machine, tree) = match header_machine(alloc, journal, disk) {
        Ok(Some(parts)) => parts,
        Ok(None) => return Ok(None),
        Err(fault) => return Err(fault),
    };
    let mut reading = begin(journal, machine, tree, evidence);
    match read_all(alloc, journal, disk, &mut reading) {
        Ok(()) => Ok(Some(seen_by(reading))),
        Err(fault) => Err(fault),
    }
}
