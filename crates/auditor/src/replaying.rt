// The entries of a segment, replayed from its snapshot.
ghost use Rattle.std.specs.Prelude.{◌≡◌, None, Some, IfOk, IsSome};
ghost use Rattle.avm_model.specs.Audit.{is_committed, behind_first};
ghost use Rattle.avm_model.specs.Frame.{frames_of};
ghost use Rattle.avm_model.specs.Head.{HeadData};
ghost use Rattle.avm_model.specs.HeadReading.{head_of};
ghost use Rattle.avm_model.specs.HeadState.{state_of};
ghost use Rattle.avm_model.specs.Machine.{State};
ghost use Rattle.avm_model.specs.Reference.{IsFaultNumber};
ghost use Rattle.avm_model.specs.Rerun.{start};
ghost use Rattle.avm_model.specs.Root.{root as root_lem};
ghost use Rattle.avm_model.specs.SegmentPages.{HasPages};
ghost use Rattle.seg_file.specs.Views.{segment_view};

use avm_hash::Digest;
use avm_num::NoMemory;
use guest_machine::Machine;
use log_entry::Frames;
use replayer::Replay;
use seg_file::Segment;
use snap_state::state_root;
use state_replay::{commits, fault_in, machine_from};
use std::alloc::Global;

/// Whether the first entry has the root and the count of the machine's state; `root` is that root.
#[tactic(auto, unfolding(avm_model::specs::Audit::is_committed))]
fn first_commits(machine: &Machine, root: &Digest, frames: &[u8]) -> bool
    requires { root.now.0 ≡ root_lem machine.now.state }
    ensures { result ≡ is_committed machine.now.state (frames_of frames.now) }
{
    match Frames::new(frames).next() {
        Some(frame) => commits(machine, root, &frame),
        None => false,
    }
}

/// The number of the first entry behind the first that doesn't replay.
fn fault_behind(replay: Replay, bytes: &[u8]) -> Option<u64>
    requires { replay.fault ≡ None }
    ensures { (s : State) → replay.stand ≡ start s → IsFaultNumber s (behind_first (frames_of bytes.now)) result }
{
    let mut frames = Frames::new(bytes);
    let _first = frames.next();
    fault_in(replay, frames)
}

/// Whether the first entry has the snapshot's root and count, and the number of the first entry behind it that doesn't
/// replay.
pub fn replayed(alloc: Global, segment: &Segment<'_>) -> Result<(bool, Option<u64>), NoMemory>
    requires head { IsSome (head_of segment.now.head.now) }
    requires pages { (h : HeadData) → head_of segment.now.head.now ≡ Some h → HasPages (segment_view segment.now) h }
    ensures committed { IfOk result (λ p. (h : HeadData) → head_of segment.now.head.now ≡ Some h → p.0 ≡ is_committed (state_of h segment.now.pages.now) (frames_of segment.now.frames.now)) }
    ensures fault { IfOk result (λ p. (h : HeadData) → head_of segment.now.head.now ≡ Some h → IsFaultNumber (state_of h segment.now.pages.now) (behind_first (frames_of segment.now.frames.now)) p.1) }
{
    let (machine, tree) = machine_from(alloc, segment.head, segment.pages)?;
    let root = state_root(&machine, &tree.root());
    let committed = first_commits(&machine, &root, segment.frames);
    let fault = fault_behind(Replay::new(machine, tree), segment.frames);
    Ok((committed, fault))
}
