//! A turn without an event.

ghost use Rattle.std.specs.Prelude.{◌≡◌, ◌<◌, ◌^◌, ℕ, None, IfOk, OnOk};
ghost use Rattle.avm_outside.specs.Outside.{BothTold};
ghost use Rattle.journal_model.specs.Journal.{JournalData};
ghost use Rattle.jrnl_store.specs.Kept.{kept as kept_of};
ghost use Rattle.record_model.specs.Turn.{Later};
ghost use Rattle.record_ready.specs.Ready.{IsDeskOf, IsSteady};
ghost use Rattle.record_store.specs.Open.{IsSame};
ghost use Rattle.record_store.specs.Saving.{StandsStill, WhereUnsaved};
ghost use Rattle.record_turn.specs.Desk.{HasDisk, IsReady, rows_of};
ghost use Rattle.record_turn.specs.Keeping.{aside_of};
ghost use Rattle.record_turn.specs.Leaves.{IsPlain, Leaves, OnOutlet};
ghost use Rattle.recorder.specs.Turns.{DiskStops, FeedStops, FeedsLater, OutletStops, Planned, UnlessFeed, WhereFeed};

use avm_outside::{Disk, Feed, Outlet};
use guest_machine::Status;
use record_parts::{Stop, Turn};
use record_turn::Desk;

/// What is done where no event is due before a count: a machine that asks gets a clock value, and one that runs makes steps.
pub fn go_on<D: Disk, F: Feed, O: Outlet>(
    desk: &mut Desk,
    disk: &mut D,
    feed: &mut F,
    outlet: &mut O,
    until: u64,
) -> Result<Turn, Stop>
    requires own { HasDisk (kept_of desk.old.store.journal) (D.may_leave disk.old) (D.seen disk.old) }
    requires ready { IsReady (kept_of desk.old.store.journal) desk.old.store.batch }
    requires clock { desk.old.machine.state.devices.clock ≡ None }
    requires later { desk.old.machine.state.count < until }
    requires most { until < 2 ^ 62 }
    ensures turns { UnlessFeed result ((value : ℕ) × BothTold (F.agenda feed.old) (F.agenda feed.new) (FeedsLater desk.old.machine.state until value)
        × BothTold (D.seen disk.old) (D.seen disk.new) (λ was now. (j : JournalData) → IsDeskOf (kept_of desk.old.store.journal) (rows_of desk.old.kept) (D.may_leave disk.old) was j
        → Leaves D.moment D.left_since disk.old disk.new (kept_of desk.new.store.journal) (D.may_leave disk.new) now j
        (Planned O.adding O.tearing (record { key = desk.old.press.key; own = desk.new.machine.state.devices.own }) (Later until) value (record { journal = j; batch = desk.old.store.batch.parts; machine = desk.old.machine.state }) (aside_of desk.old.kept desk.old.machine) (aside_of desk.new.kept desk.new.machine) desk.new.store.batch.parts desk.new.machine.state (record { disk_before = D.faults disk.old; disk_after = D.faults disk.new; outlet_before = O.faults outlet.old; outlet_after = O.faults outlet.new }) (O.held outlet.old) (O.held outlet.new) result))) }
    ensures failed { WhereFeed result ((desk.new ≡ desk.old) × (disk.new ≡ disk.old) × (outlet.new ≡ outlet.old) × (F.agenda feed.new ≡ F.agenda feed.old)) }
    ensures ready { OnOk result (IsReady (kept_of desk.new.store.journal) desk.new.store.batch) }
    ensures steady { IsSteady desk.new.machine.state }
    ensures plain { IfOk result IsPlain }
    ensures key { desk.new.press.key ≡ desk.old.press.key }
    ensures same { IsSame (kept_of desk.old.store.journal) (kept_of desk.new.store.journal) }
    ensures disk_faults { DiskStops result (D.faults disk.old) (D.faults disk.new) }
    ensures outlet_faults { OutletStops result (O.faults outlet.old) (O.faults outlet.new) }
    ensures run { OnOutlet result ((kept_of desk.new.store.journal).stop ≡ None) }
    ensures unsaved { WhereUnsaved result (StandsStill (kept_of desk.new.store.journal) (D.may_leave disk.new) (D.seen disk.new)) }
    ensures feed_faults { FeedStops result (F.faults feed.old) (F.faults feed.new) }
    ensures loan { O.loan outlet.new ≡ O.loan outlet.old }
{
    match desk.machine.status() {
        Status::Running => {}
        Status::Waiting => return Ok(Turn::Waiting),
        Status::Halted => return Ok(Turn::Halted),
    }
    if !desk.machine.asks() {
        return desk.run_on(disk, outlet, until);
    }
    match feed.clock() {
        Ok(value) => desk.answer_clock(disk, outlet, value),
        Err(_) => Err(Stop::FeedFault),
    }
}
