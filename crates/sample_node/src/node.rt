//! The first node: its recorder, with what it works on.

ghost use Rattle.std.specs.Prelude.{◌≡◌, None, Ok, Some, true};
ghost use Rattle.avm_outside.specs.DiskLog.{IsImage};
ghost use Rattle.avm_outside.specs.MemDisks.{disk_bytes, state_now};
ghost use Rattle.jrnl_store.specs.Kept.{kept as kept_of};
ghost use Rattle.record_model.specs.Recorded.{Run};
ghost use Rattle.record_turn.specs.Desk.{HasDisk};
ghost use Rattle.recorder.specs.Recorder.{desk_of, stop_of};
ghost use Rattle.sample_node.specs.Node.{IsNode, SealEnds, TurnEnds, sender_in};
ghost use Rattle.sample_node.specs.Progresses.{ProgressOf, SealedAs};

use avm_num::NoMemory;
use avm_outside::{ListFeed, MemDisk, MemOutlet};
use recorder::{Recorder, Sealed, Stop, Turn};

/// The first node's recorder, with its disk, its feed and its outlet.
#[derive(Drop)]
pub struct Node {
    pub recorder: Recorder,
    pub disk: MemDisk,
    pub feed: ListFeed,
    pub outlet: MemOutlet,
}

/// What a turn did to the run.
#[derive(Clone, Copy)]
pub enum Progress {
    GoesOn,
    /// It has ended.
    Ended,
    /// A batch can't be saved.
    Stopped,
}

/// What a turn's answer says of the run. No call of the objects in memory fails but for want of memory.
fn answered(turn: Turn) -> Result<Progress, NoMemory>
    ensures { ProgressOf turn result }
{
    match turn {
        Turn::Ran(_) | Turn::Took | Turn::Resent | Turn::Dropped(_) => Ok(Progress::GoesOn),
        Turn::Waiting | Turn::Halted | Turn::End => Ok(Progress::Ended),
        Turn::Stopped(Stop::LeavesSpent) | Turn::Stopped(Stop::Full) => Ok(Progress::Stopped),
        Turn::Stopped(_) | Turn::Ended(_) => Err(NoMemory),
    }
}

/// Whether a seal was saved, or can't be.
fn outcome(sealed: Sealed) -> Result<bool, NoMemory>
    ensures { SealedAs sealed result }
{
    match sealed {
        Sealed::Done | Sealed::Again => Ok(true),
        Sealed::Stopped(Stop::LeavesSpent) | Sealed::Stopped(Stop::Full) => Ok(false),
        Sealed::Stopped(_) | Sealed::Ended(_) => Err(NoMemory),
    }
}

impl Node {
    /// One turn.
    pub fn turn(&mut self) -> Result<Progress, NoMemory>
        requires own { HasDisk (kept_of (desk_of self.old.recorder).store.journal) (IsImage (state_now self.old.disk)) (Some (disk_bytes self.old.disk)) }
        ensures ends { (r : Run) → IsNode self.old r → TurnEnds (sender_in self.new) self.new r result }
        ensures key { (desk_of self.new.recorder).press.key ≡ (desk_of self.old.recorder).press.key }
    {
        let turn = self
            .recorder
            .turn(&mut self.disk, &mut self.feed, &mut self.outlet);
        answered(turn)
    }

    /// Seals a run that has ended, and tells whether the seal could be saved.
    pub fn seal(&mut self) -> Result<bool, NoMemory>
        requires own { HasDisk (kept_of (desk_of self.old.recorder).store.journal) (IsImage (state_now self.old.disk)) (Some (disk_bytes self.old.disk)) }
        ensures ends { (r : Run) → IsNode self.old r → SealEnds (sender_in self.old) self.new r result }
        ensures saved { stop_of self.old.recorder ≡ None → result ≡ Ok true → stop_of self.new.recorder ≡ None }
        ensures key { (desk_of self.new.recorder).press.key ≡ (desk_of self.old.recorder).press.key }
    {
        let answer = self.recorder.seal(&mut self.disk, &mut self.outlet);
        outcome(answer)
    }
}
