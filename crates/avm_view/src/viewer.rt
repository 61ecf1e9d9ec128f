//! A segment's machine, from count to count.

ghost use Rattle.std.specs.Prelude.{◌≡◌, ◌≤◌, ◌<◌, ◌==◌, ◌+◌, ◌-◌, ◌^◌, not, true, Some, IfOk, IfErr, IfSome, IfNone};
ghost use Rattle.std.specs.Bool.{OnTrue, OnFalse};
ghost use Rattle.avm_model.specs.Audit.{snapshot, entry_frames, behind_first};
ghost use Rattle.avm_model.specs.Frame.{frames_of};
ghost use Rattle.avm_model.specs.Head.{HeadData};
ghost use Rattle.avm_model.specs.HeadReading.{head_of};
ghost use Rattle.avm_model.specs.Machine.{Step, can_step};
ghost use Rattle.avm_model.specs.Reference.{timed};
ghost use Rattle.avm_model.specs.Segment.{SegmentData, whole_segment_of};
ghost use Rattle.seg_file.specs.Views.{segment_view};
ghost use Rattle.state_replay.specs.Starting.{TellsState};
ghost use Rattle.view_model.specs.Points.{next};
ghost use Rattle.view_model.specs.Views.{CanView, Run, At, run_of};
ghost use Rattle.avm_view.specs.Faults.{IsViewFault};
ghost use Rattle.avm_view.specs.Keeping.{IsAside};
ghost use Rattle.avm_view.specs.Viewing.{viewing_from, Stands, Lacks};

use crate::counts::last_count;
use crate::faults::ViewFault;
use crate::inputs::take_inputs;
use crate::keeping::Aside;
use crate::opening::judge;
use avm_num::{NoMemory, are_bytes};
use guest_machine::{Machine, Outs};
use log_entry::Frames;
use seg_file::{Segment, read_segment};
use snap_state::read_head;
use state_replay::machine_from;
use std::alloc::Global;
use std::marker::Model;

/// A segment's machine at one count of its run, before it takes the inputs at that count.
#[derive(Drop)]
pub struct Viewer<'a> {
    machine: Machine,
    frames: Frames<'a>,
    first: u64,
    last: u64,
    // what a step puts out, which nobody asks for
    outs: Outs,
}

impl<'a> Model for Viewer<'a> {
    ghost use Rattle.avm_view.specs.Viewing.{Viewing, viewing_of, IsViewer};

    ghost Value = { Viewing };

    ghost view = { viewing_of };

    ghost invariant = { IsViewer };
}

/// The viewer at the snapshot of a segment that can be viewed.
fn start<'a>(alloc: Global, parts: &Segment<'a>) -> Result<Viewer<'a>, NoMemory>
    requires tells { TellsState parts.now.head.now parts.now.pages.now }
    requires can { (h : HeadData) → head_of parts.now.head.now ≡ Some h → CanView (segment_view parts.now) h }
    ensures { IfOk result (λ v. (h : HeadData) → head_of parts.now.head.now ≡ Some h → v ≡ viewing_from (run_of (segment_view parts.now) h)) }
{
    let (machine, _tree) = machine_from(alloc, parts.head, parts.pages)?;
    let first = machine.count();
    Ok(Viewer {
        machine,
        frames: Frames::new(parts.frames),
        first,
        last: last_count(Frames::new(parts.frames)),
        outs: Outs::none(),
    })
}

/// The viewer one count behind a machine that was left aside before the count that is asked for; none where that isn't before it,
/// or before the last.
fn resume<'a>(aside: Aside<'a>, parts: &Segment<'a>, first: u64, count: u64) -> Option<Viewer<'a>>
    requires can { (h : HeadData) → head_of parts.now.head.now ≡ Some h → CanView (segment_view parts.now) h }
    requires aside { (h : HeadData) → head_of parts.now.head.now ≡ Some h → IsAside (snapshot (segment_view parts.now) h) (behind_first (entry_frames (segment_view parts.now))) aside.machine.state (frames_of aside.frames) }
    requires tells { TellsState parts.now.head.now parts.now.pages.now }
    requires first { (h : HeadData) → head_of parts.now.head.now ≡ Some h → first ≡ (snapshot (segment_view parts.now) h).count }
    ensures stands { IfSome result (λ v. (h : HeadData) → head_of parts.now.head.now ≡ Some h → Stands (run_of (segment_view parts.now) h) v) }
    ensures near { IfSome result (λ v. v.point.state.count ≤ count) }
{
    let last = last_count(Frames::new(parts.frames));
    if aside.machine.count() >= count || aside.machine.count() >= last {
        return None;
    }
    let mut viewer = Viewer {
        machine: aside.machine,
        frames: aside.frames,
        first,
        last,
        outs: Outs::none(),
    };
    viewer.advance();
    Some(viewer)
}

/// One step of a machine that can make one.
fn step_on(machine: &mut Machine, outs: &mut Outs)
    requires can { can_step machine.old.state ≡ true }
    requires room { machine.old.state.count < 2 ^ 62 - 1 }
    ensures state { machine.new.state ≡ (Step machine.old.state).state }
{
    machine.step_into(outs);
}

/// A viewer that stands at or before a count, or at the snapshot's.
fn near<'a>(
    alloc: Global,
    parts: &Segment<'a>,
    aside: Option<Aside<'a>>,
    count: u64,
) -> Result<Viewer<'a>, NoMemory>
    requires tells { TellsState parts.now.head.now parts.now.pages.now }
    requires can { (h : HeadData) → head_of parts.now.head.now ≡ Some h → CanView (segment_view parts.now) h }
    requires aside { (h : HeadData) → head_of parts.now.head.now ≡ Some h → IfSome aside (λ a. IsAside (snapshot (segment_view parts.now) h) (behind_first (entry_frames (segment_view parts.now))) a.machine.state (frames_of a.frames)) }
    ensures stands { IfOk result (λ v. (h : HeadData) → head_of parts.now.head.now ≡ Some h → Stands (run_of (segment_view parts.now) h) v) }
    ensures near { IfOk result (λ v. v.first ≤ count → v.point.state.count ≤ count) }
{
    let viewer = start(alloc, parts)?;
    match aside {
        Some(aside) => match resume(aside, parts, viewer.first, count) {
            Some(ahead) => Ok(ahead),
            None => Ok(viewer),
        },
        None => Ok(viewer),
    }
}

/// Goes on to a later count.
fn go_to(viewer: &mut Viewer<'_>, count: u64)
    requires low { viewer.old.point.state.count ≤ count }
    requires high { count ≤ viewer.old.last }
    ensures count { viewer.new.point.state.count ≡ count }
    ensures stands { (r : Run) → Stands r viewer.old → Stands r viewer.new }
{
    while viewer.machine().count() < count && viewer.advance() {}
}

/// The viewer at a count, or none where that is none of the run's.
fn at_count<'a>(viewer: Viewer<'a>, count: u64) -> Option<Viewer<'a>>
    requires near { viewer.first ≤ count → viewer.point.state.count ≤ count }
    ensures stands { IfSome result (λ v. (r : Run) → Stands r viewer.entry → Stands r v) }
    ensures count { IfSome result (λ v. v.point.state.count ≡ count) }
    ensures none { IfNone result ((r : Run) → Stands r viewer.entry → Lacks r count) }
{
    if count < viewer.first || viewer.last < count {
        return None;
    }
    let mut viewer = viewer;
    go_to(&mut viewer, count);
    Some(viewer)
}

impl<'a> Viewer<'a> {
    /// The viewer of a segment, at its snapshot's count; or the first reason why it can't be viewed.
    pub fn open(alloc: Global, segment: &'a [u8]) -> Result<Viewer<'a>, ViewFault>
        ensures opened { IfOk result (λ v. (s : SegmentData) × (h : HeadData) × (whole_segment_of segment.now ≡ Some (s, h)) × CanView s h × (v ≡ viewing_from (run_of s h))) }
        ensures stands { IfOk result (λ v. (s : SegmentData) (h : HeadData) → whole_segment_of segment.now ≡ Some (s, h) → Stands (run_of s h) v) }
        ensures refused { IfErr result (λ f. IsViewFault segment.now f) }
    {
        are_bytes(segment);
        let Some(parts) = read_segment(segment) else {
            return Err(ViewFault::Malformed);
        };
        if !read_head(parts.head) {
            return Err(ViewFault::Malformed);
        }
        if let Err(fault) = judge(alloc, &parts, 0) {
            return Err(fault);
        }
        match start(alloc, &parts) {
            Ok(viewer) => Ok(viewer),
            Err(NoMemory) => Err(ViewFault::NoMemory),
        }
    }

    /// The viewer of a segment at a count, for which the run is made once and from the last snapshot before the count on a second
    /// time; none where the count is none of the run's. The first reason why the segment can't be viewed comes before that.
    pub fn open_at(
        alloc: Global,
        segment: &'a [u8],
        count: u64,
    ) -> Result<Option<Viewer<'a>>, ViewFault>
        ensures found { IfOk result (λ found. (s : SegmentData) × (h : HeadData) × (whole_segment_of segment.now ≡ Some (s, h)) × CanView s h × IfSome found (λ v. Stands (run_of s h) v × (v.point.state.count ≡ count)) × IfNone found (Lacks (run_of s h) count)) }
        ensures refused { IfErr result (λ f. IsViewFault segment.now f) }
    {
        are_bytes(segment);
        let Some(parts) = read_segment(segment) else {
            return Err(ViewFault::Malformed);
        };
        if !read_head(parts.head) {
            return Err(ViewFault::Malformed);
        }
        let aside = match judge(alloc, &parts, count) {
            Ok(aside) => aside,
            Err(fault) => return Err(fault),
        };
        match near(alloc, &parts, aside, count) {
            Ok(viewer) => Ok(at_count(viewer, count)),
            Err(NoMemory) => Err(ViewFault::NoMemory),
        }
    }

    /// The snapshot's count.
    pub fn first(&self) -> u64
        ensures { result ≡ self.now.first }
    {
        self.first
    }

    /// The last entry's count.
    pub fn last(&self) -> u64
        ensures { result ≡ self.now.last }
    {
        self.last
    }

    /// The machine at the viewer's count; no input at this count has been taken.
    pub fn machine(&self) -> &Machine
        ensures state { result.now.state ≡ self.now.point.state }
        ensures at { (r : Run) → Stands r self.now → At r self.now.point.state.count result.now.state }
    {
        &self.machine
    }

    /// Goes to the next count: the inputs at the count are taken, and one step is made. It is false, and changes nothing,
    /// exactly at the last entry's count.
    pub fn advance(&mut self) -> bool
        ensures ends { result ≡ not (self.old.point.state.count == self.old.last) }
        ensures next { OnTrue result (next timed self.old.point ≡ Some self.new.point) }
        ensures stands { OnTrue result ((r : Run) → Stands r self.old → Stands r self.new) }
        ensures count { OnTrue result (self.new.point.state.count ≡ self.old.point.state.count + 1) }
        ensures first { self.new.first ≡ self.old.first }
        ensures last { self.new.last ≡ self.old.last }
        ensures high { self.new.point.state.count ≤ self.new.last }
        ensures stays { OnFalse result (self.new ≡ self.old) }
    {
        if self.machine.count() == self.last {
            return false;
        }
        take_inputs(&mut self.machine, &mut self.frames);
        step_on(&mut self.machine, &mut self.outs);
        true
    }
}
