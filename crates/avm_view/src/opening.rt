// A segment is judged: whether its first entry has the snapshot's root and count, and whether the others replay.
ghost use Rattle.std.specs.Prelude.{◌≡◌, None, Some, IfOk, IfErr, IfSome};
ghost use Rattle.avm_model.specs.Audit.{is_committed, behind_first};
ghost use Rattle.avm_model.specs.Frame.{frames_of};
ghost use Rattle.avm_model.specs.Head.{HeadData};
ghost use Rattle.avm_model.specs.HeadReading.{head_of};
ghost use Rattle.avm_model.specs.HeadState.{state_of};
ghost use Rattle.avm_model.specs.Machine.{State};
ghost use Rattle.avm_model.specs.Pages.{sha_hashes, root_of};
ghost use Rattle.avm_model.specs.Reference.{IsFaultNumber};
ghost use Rattle.avm_model.specs.Rerun.{start};
ghost use Rattle.page_tree.specs.Nodes.{at};
ghost use Rattle.seg_file.specs.Views.{segment_view};
ghost use Rattle.state_replay.specs.Starting.{TellsState};
ghost use Rattle.view_model.specs.Views.{CanView};
ghost use Rattle.avm_view.specs.Faults.{IsFaultOf};
ghost use Rattle.avm_view.specs.Keeping.{IsAside};

use crate::faults::ViewFault;
use crate::keeping::{Aside, Course, replay_aside, snapshot_before};
use avm_num::NoMemory;
use guest_machine::Machine;
use log_entry::Frames;
use page_tree::Tree;
use replayer::Replay;
use seg_file::Segment;
use snap_state::state_root;
use state_replay::{commits, machine_from};
use std::alloc::Global;

/// Whether the first entry has the root and the count of the machine, whose pages have this tree.
#[tactic(auto, unfolding(avm_model::specs::Audit::is_committed))]
fn first_commits(machine: &Machine, tree: &Tree, frames: &[u8]) -> bool
    requires { at tree.now 1 ≡ root_of sha_hashes machine.now.state.ram }
    ensures { result ≡ is_committed machine.now.state (frames_of frames.now) }
{
    let root = state_root(machine, &tree.root());
    match Frames::new(frames).next() {
        Some(frame) => commits(machine, &root, &frame),
        None => false,
    }
}

/// The replay of the entries behind the first, with the machine behind the last snapshot before a count left aside.
fn replay_behind<'a>(
    alloc: Global,
    replay: Replay,
    bytes: &'a [u8],
    count: u64,
) -> Result<Course<'a>, NoMemory>
    requires { replay.fault ≡ None }
    ensures fault { IfOk result (λ c. (s : State) → replay.stand ≡ start s → IsFaultNumber s (behind_first (frames_of bytes.now)) c.fault) }
    ensures aside { IfOk result (λ c. (s : State) → replay.stand ≡ start s → IfSome c.aside (λ a. IsAside s (behind_first (frames_of bytes.now)) a.machine.state (frames_of a.frames))) }
{
    let number = snapshot_before(Frames::new(bytes), count);
    let mut frames = Frames::new(bytes);
    let _first = frames.next();
    replay_aside(alloc, replay, frames, number)
}

/// Whether the first entry has the snapshot's root and count, and the replay of those behind it.
fn replayed<'a>(
    alloc: Global,
    parts: &Segment<'a>,
    count: u64,
) -> Result<(bool, Course<'a>), NoMemory>
    requires { TellsState parts.now.head.now parts.now.pages.now }
    ensures committed { IfOk result (λ p. (h : HeadData) → head_of parts.now.head.now ≡ Some h → p.0 ≡ is_committed (state_of h parts.now.pages.now) (frames_of parts.now.frames.now)) }
    ensures fault { IfOk result (λ p. (h : HeadData) → head_of parts.now.head.now ≡ Some h → IsFaultNumber (state_of h parts.now.pages.now) (behind_first (frames_of parts.now.frames.now)) p.1.fault) }
    ensures aside { IfOk result (λ p. (h : HeadData) → head_of parts.now.head.now ≡ Some h → IfSome p.1.aside (λ a. IsAside (state_of h parts.now.pages.now) (behind_first (frames_of parts.now.frames.now)) a.machine.state (frames_of a.frames))) }
{
    let (machine, tree) = machine_from(alloc, parts.head, parts.pages)?;
    let committed = first_commits(&machine, &tree, parts.frames);
    let course = replay_behind(alloc, Replay::new(machine, tree), parts.frames, count)?;
    Ok((committed, course))
}

/// Whether a segment's first entry has the snapshot's root and count, and the others replay; then the machine behind the
/// last snapshot before a count, where there is one.
pub fn judge<'a>(
    alloc: Global,
    parts: &Segment<'a>,
    count: u64,
) -> Result<Option<Aside<'a>>, ViewFault>
    requires { TellsState parts.now.head.now parts.now.pages.now }
    ensures ok { IfOk result (λ _. (h : HeadData) → head_of parts.now.head.now ≡ Some h → CanView (segment_view parts.now) h) }
    ensures aside { IfOk result (λ left. (h : HeadData) → head_of parts.now.head.now ≡ Some h → IfSome left (λ a. IsAside (state_of h parts.now.pages.now) (behind_first (frames_of parts.now.frames.now)) a.machine.state (frames_of a.frames))) }
    ensures refused { IfErr result (λ f. (h : HeadData) → head_of parts.now.head.now ≡ Some h → IsFaultOf (segment_view parts.now) h f) }
{
    match replayed(alloc, parts, count) {
        Err(NoMemory) => Err(ViewFault::NoMemory),
        Ok((false, _)) => Err(ViewFault::Uncommitted),
        Ok((true, course)) => match course.fault {
            Some(number) => Err(ViewFault::Unreplayed(number)),
            None => Ok(course.aside),
        },
    }
}
