//! A node: its disk and its recorder.

ghost use Rattle.std.specs.Prelude.{◌≡◌, ◌≢◌, ◌≤◌, Err, IfOk, option_map};
ghost use Rattle.avm_model.specs.Keys.{HasTypes};
ghost use Rattle.avm_outside.specs.MemDisks.{disk_calls, disk_state};
ghost use Rattle.record_open.specs.declared.fault.RecordFault.{RecordFault as RecordFaultLem};
ghost use Rattle.record_open.specs.declared.fault.RecordFault.TheVariants as fault;
ghost use Rattle.world_core.specs.Acts.{ActOf};
ghost use Rattle.world_core.specs.Crashes.{CrashedIfUp, FailsOn, IsDown, OpensOn};
ghost use Rattle.world_core.specs.Gifts.{FitsGift};
ghost use Rattle.world_core.specs.Nodes.{DidIfUp, SameNode, StepsAt, counted as counted_lem, crash_call as call_of_crash, machine_of};
ghost use Rattle.world_core.specs.Runs.{Runs, RunsIfUp};
ghost use Rattle.world_core.specs.Turns.{SealOf, TurnOf};
ghost use Rattle.world_model.specs.EventView.{deed_view, event_view};
ghost use Rattle.world_parts.specs.Crash.{crash_image as image_of_crash};
ghost use Rattle.world_parts.specs.OneOutlet.{one_packets};

use crate::gift::{feed_of, later_than};
use crate::types::Stepped;
use avm_model::Peer;
use avm_num::NoMemory;
use avm_outside::MemDisk;
use guest_machine::Machine;
use lms_signer::Signer;
use recorder::{RecordFault, Recorder, Sealed, Turn};
use std::alloc::Global;
use world_model::{Act, Crash, Event};
use world_parts::{OneFeed, OneOutlet, crash_image};

/// A store in memory with its recorder, which is none where the node is down; and what other nodes know of it.
#[derive(Drop)]
pub struct Node {
    pub disk: MemDisk,
    pub recorder: Option<Recorder>,
    pub own: u8,
    pub key: [u8; 56],
    pub peers: Vec<Peer>,
}

/// One turn of a recorder.
fn turn(
    recorder: &mut Recorder,
    disk: &mut MemDisk,
    feed: &mut OneFeed<'_>,
    outlet: &mut OneOutlet,
) -> Turn
    requires runs { Runs disk.old recorder.old }
    ensures turn { TurnOf disk.old disk.new recorder.old recorder.new feed.old (one_packets outlet.old) (one_packets outlet.new) result }
    ensures runs { Runs disk.new recorder.new }
{
    recorder.turn(disk, feed, outlet)
}

/// One seal of a recorder.
fn seal(recorder: &mut Recorder, disk: &mut MemDisk, outlet: &mut OneOutlet) -> Sealed
    requires runs { Runs disk.old recorder.old }
    ensures seal { SealOf disk.old disk.new recorder.old recorder.new (one_packets outlet.old) (one_packets outlet.new) result }
    ensures runs { Runs disk.new recorder.new }
{
    recorder.seal(disk, outlet)
}

/// What a recorder does by an act.
fn act_on(
    recorder: &mut Recorder,
    disk: &mut MemDisk,
    act: Act<'_>,
    packet: &[u8],
    number: u64,
    outlet: &mut OneOutlet,
) -> Stepped
    requires runs { Runs disk.old recorder.old }
    requires fits { FitsGift (deed_view act) packet.now }
    ensures act { ActOf disk.old disk.new recorder.old recorder.new (deed_view act.entry) packet.now number (one_packets outlet.old) (one_packets outlet.new) result }
    ensures runs { Runs disk.new recorder.new }
{
    if matches!(act, Act::Seal) {
        return Stepped::Sealed(seal(recorder, disk, outlet));
    }
    let later = later_than(recorder.machine().count());
    let mut feed = feed_of(act, packet, later, number);
    Stepped::Turned(turn(recorder, disk, &mut feed, outlet))
}

/// Opens a recorder on an image, which is all that is left of its disk.
fn reopen(
    alloc: Global,
    disk: &mut MemDisk,
    signer: Signer,
    image: Vec<u8>,
) -> Result<Recorder, RecordFault>
    requires types { HasTypes signer }
    ensures opens { IfOk result (λ r. OpensOn disk.new r signer image.items) }
    ensures fails { (why : RecordFaultLem) → why ≢ fault.NoMemory → result ≡ Err why → FailsOn disk.old disk.new signer image.items why }
    ensures runs { IfOk result (λ r. Runs disk.new r) }
{
    disk.set_image(image);
    Recorder::attach(alloc, disk, signer)
}

/// What a step answers where a node can't be opened again.
fn down(why: RecordFault) -> Result<Stepped, NoMemory>
    ensures { IsDown why result }
{
    match why {
        RecordFault::NoMemory => Err(NoMemory),
        _ => Ok(Stepped::Down),
    }
}

/// How many disk calls count of those that an act made. The entry of a packet that is released again is sought among the journal's
/// items: its reads count as one, and such an act makes no other calls.
fn counted(answer: Stepped, made: usize) -> usize
    ensures { result ≡ counted_lem answer made }
{
    match answer {
        Stepped::Turned(Turn::Resent | Turn::Dropped(_)) => made.min(1),
        _ => made,
    }
}

/// Behind which call of its disk a node crashes: the last, where what the act released is kept.
fn crash_call(kept: bool, before: usize, calls: usize, now: usize) -> usize
    ensures value { result ≡ call_of_crash kept before calls now }
    ensures bound { result ≤ now }
{
    if kept {
        now
    } else {
        before.saturating_add(calls).min(now)
    }
}

impl Node {
    /// One turn or one seal. A node that is down does nothing.
    fn act(&mut self, act: Act<'_>, packet: &[u8], number: u64, outlet: &mut OneOutlet) -> Stepped
        requires runs { RunsIfUp self.old.disk self.old.recorder }
        requires fits { FitsGift (deed_view act) packet.now }
        ensures did { DidIfUp self.old.recorder self.old self.new (deed_view act.entry) packet.now number (one_packets outlet.old) (one_packets outlet.new) result }
        ensures runs { RunsIfUp self.new.disk self.new.recorder }
        ensures same { SameNode self.old self.new }
    {
        match &mut self.recorder {
            Some(recorder) => act_on(recorder, &mut self.disk, act, packet, number, outlet),
            None => Stepped::Down,
        }
    }

    /// A crash behind so many calls of the disk: the recorder is dropped but for its signer, and the node is opened again on the image
    /// that the crash leaves. Where that fails it is down.
    fn crash(&mut self, alloc: Global, calls: usize, crash: Crash) -> Result<Stepped, NoMemory>
        requires runs { RunsIfUp self.old.disk self.old.recorder }
        requires calls { calls ≤ disk_calls self.old.disk }
        ensures crashed { CrashedIfUp self.old.recorder self.old.disk self.new.disk self.new.recorder (image_of_crash (disk_state self.old.disk calls) crash.long crash.fill) result }
        ensures runs { RunsIfUp self.new.disk self.new.recorder }
        ensures same { SameNode self.old self.new }
    {
        let Some(recorder) = self.recorder.take() else {
            return Ok(Stepped::Down);
        };
        let image = crash_image(alloc, &self.disk, calls, crash.long, crash.fill)?;
        match reopen(alloc, &mut self.disk, recorder.into_signer(), image) {
            Ok(recorder) => {
                self.recorder = Some(recorder);
                Ok(Stepped::Reopened)
            }
            Err(why) => down(why),
        }
    }

    /// The machine, unless the node is down.
    pub fn machine(&self) -> Option<&Machine>
        ensures { option_map (λ m. m.now) result ≡ machine_of self.now.recorder }
    {
        match &self.recorder {
            Some(recorder) => Some(recorder.machine()),
            None => None,
        }
    }

    /// One act, and the crash that may follow it. Also whether what was released is kept: a crash amid the disk calls that count of
    /// the act drops it.
    pub fn step(
        &mut self,
        alloc: Global,
        event: &Event<'_>,
        packet: &[u8],
        number: u64,
        outlet: &mut OneOutlet,
    ) -> (Result<Stepped, NoMemory>, bool)
        requires runs { RunsIfUp self.old.disk self.old.recorder }
        requires fits { FitsGift (deed_view event.now.act) packet.now }
        ensures steps { StepsAt self.old self.new (event_view event.now) packet.now number (one_packets outlet.old) (one_packets outlet.new) result.1 result.0 }
        ensures runs { RunsIfUp self.new.disk self.new.recorder }
    {
        let before = self.disk.calls();
        let answer = self.act(event.act, packet, number, outlet);
        let now = self.disk.calls();
        let Some(crash) = event.crash else {
            return (Ok(answer), true);
        };
        let most = crash.calls as usize;
        let kept = counted(answer, now.saturating_sub(before)) <= most;
        let at = crash_call(kept, before, most, now);
        (self.crash(alloc, at, crash), kept)
    }
}
