// What is asked of a segment is looked for, and shown.
ghost use Rattle.std.specs.Prelude.{◌≡◌, ◌≤◌, ◌+◌, ◌*◌, ◌^◌, ℕ, List};
ghost use Rattle.std.specs.Bool.{OnTrue};
ghost use Rattle.avm_model.specs.Segment.{whole_segment_of};
ghost use Rattle.avm_view.specs.Faults.{IsViewFault};
ghost use Rattle.view_command.specs.Showing.{IsRefusal, Leaves, Refuses, ShowsState, ShowsChanges, StateOutOfRange, ChangesOutOfRange, in_ram};

use crate::End;
use crate::changing::print_changes;
use crate::showing::print_state;
use avm_outside::Sink;
use avm_view::{ViewFault, Viewer};
use command_parts::Fault;
use guest_machine::Machine;
use std::alloc::Global;

/// What is asked of a state: its count, and words of its RAM from an address on, none where `words` is 0.
#[derive(Clone, Copy, Debug, PartialEq, Eq)]
pub struct StateAsked {
    pub count: u64,
    pub from: u32,
    pub words: u32,
}

/// Why a segment can't be viewed, as an end.
fn refusal(fault: ViewFault) -> Result<End, Fault>
    ensures { (bytes : List ℕ) → IsViewFault bytes fault → IsRefusal (whole_segment_of bytes) result }
{
    match fault {
        ViewFault::NoMemory => Err(Fault::NoMemory),
        ViewFault::Malformed => Ok(End::RefusedMalformed),
        ViewFault::Uncommitted => Ok(End::RefusedUncommitted),
        ViewFault::Unreplayed(number) => Ok(End::RefusedUncovered(number)),
    }
}

/// Whether words from an address on are in the RAM of a machine.
fn has_words(machine: &Machine, from: u32, words: u32) -> bool
    ensures value { result ≡ in_ram machine.now.state from words }
    ensures fits { OnTrue result (from + 4 * words ≤ 2 ^ 32) }
{
    let end = (1 << 31) + 4096 * u64::from(machine.ram().pages());
    words == 0
        || (from % 4 == 0 && from >= 1 << 31 && u64::from(from) + 4 * u64::from(words) <= end)
}

/// Prints the state at a count of a segment's run, and words of its RAM.
pub fn show_state<S: Sink>(
    alloc: Global,
    segment: &[u8],
    asked: &StateAsked,
    out: &mut S,
) -> Result<End, Fault>
    ensures { Leaves (ShowsState asked.now (whole_segment_of segment.now)) (Refuses (StateOutOfRange asked.now) (whole_segment_of segment.now)) result (S.faults out.old) (S.faults out.new) (S.written out.old) (S.written out.new) }
{
    let viewer = match Viewer::open_at(alloc, segment, asked.count) {
        Ok(Some(viewer)) => viewer,
        Ok(None) => return Ok(End::RefusedRange),
        Err(fault) => return refusal(fault),
    };
    if !has_words(viewer.machine(), asked.from, asked.words) {
        return Ok(End::RefusedRange);
    }
    match print_state(alloc, viewer.machine(), asked.from, asked.words, out) {
        Ok(()) => Ok(End::Shown),
        Err(fault) => Err(fault),
    }
}

/// Prints the changes of a word of the RAM in a segment's run.
pub fn show_changes<S: Sink>(
    alloc: Global,
    segment: &[u8],
    address: u32,
    out: &mut S,
) -> Result<End, Fault>
    ensures { Leaves (ShowsChanges address (whole_segment_of segment.now)) (Refuses (ChangesOutOfRange address) (whole_segment_of segment.now)) result (S.faults out.old) (S.faults out.new) (S.written out.old) (S.written out.new) }
{
    let viewer = match Viewer::open(alloc, segment) {
        Ok(viewer) => viewer,
        Err(fault) => return refusal(fault),
    };
    if !has_words(viewer.machine(), address, 1) {
        return Ok(End::RefusedRange);
    }
    match print_changes(alloc, viewer, address, out) {
        Ok(()) => Ok(End::Shown),
        Err(fault) => Err(fault),
    }
}
