//! A turn of a recorder that hasn't stopped.

ghost use Rattle.std.specs.Prelude.{◌≡◌, ℕ, None, IfOk, OnOk, is_some};
ghost use Rattle.avm_model.specs.Machine.{is_running};
ghost use Rattle.avm_outside.specs.Outside.{BothTold};
ghost use Rattle.journal_model.specs.Journal.{JournalData};
ghost use Rattle.jrnl_store.specs.Kept.{kept as kept_of};
ghost use Rattle.record_model.specs.Turn.{Gift};
ghost use Rattle.record_ready.specs.Ready.{IsDeskOf, IsSteady};
ghost use Rattle.record_store.specs.Open.{IsSame};
ghost use Rattle.record_store.specs.Saving.{StandsStill, WhereUnsaved};
ghost use Rattle.record_turn.specs.Desk.{HasDisk, IsReady, rows_of};
ghost use Rattle.record_turn.specs.Keeping.{aside_of};
ghost use Rattle.record_turn.specs.Leaves.{IsPlain, Leaves, OnOutlet};
ghost use Rattle.recorder.specs.Turns.{DiskStops, Feeds, FeedStops, OutletStops, Planned, UnlessFeed, WhereFeed};

use crate::going::go_on;
use avm_outside::{Disk, Due, Feed, Outlet};
use guest_machine::{Machine, Status};
use record_packets::{send_again, take_packet};
use record_parts::{Stop, Turn};
use record_turn::Desk;

/// Whether a clock value is pending.
fn pends(machine: &Machine) -> bool
    ensures { result ≡ is_some machine.now.state.devices.clock }
{
    machine.devices().pending()
}

/// Whether the machine runs.
fn runs(machine: &Machine) -> bool
    ensures { result ≡ is_running machine.now.state.status }
{
    match machine.status() {
        Status::Running => true,
        _ => false,
    }
}

/// Uses a pending clock value; else asks the feed, and does what that gives.
pub fn turn_on<D: Disk, F: Feed, O: Outlet>(
    desk: &mut Desk,
    disk: &mut D,
    feed: &mut F,
    outlet: &mut O,
) -> Result<Turn, Stop>
    requires own { HasDisk (kept_of desk.old.store.journal) (D.may_leave disk.old) (D.seen disk.old) }
    requires ready { IsReady (kept_of desk.old.store.journal) desk.old.store.batch }
    requires steady { IsSteady desk.old.machine.state }
    ensures turns { UnlessFeed result ((gift : Gift) × (value : ℕ) × BothTold (F.agenda feed.old) (F.agenda feed.new) (Feeds (is_some desk.old.machine.state.devices.clock) F.answer desk.old.machine.state gift value)
        × BothTold (D.seen disk.old) (D.seen disk.new) (λ was now. (j : JournalData) → IsDeskOf (kept_of desk.old.store.journal) (rows_of desk.old.kept) (D.may_leave disk.old) was j
        → Leaves D.moment D.left_since disk.old disk.new (kept_of desk.new.store.journal) (D.may_leave disk.new) now j
        (Planned O.adding O.tearing (record { key = desk.old.press.key; own = desk.new.machine.state.devices.own }) gift value (record { journal = j; batch = desk.old.store.batch.parts; machine = desk.old.machine.state }) (aside_of desk.old.kept desk.old.machine) (aside_of desk.new.kept desk.new.machine) desk.new.store.batch.parts desk.new.machine.state (record { disk_before = D.faults disk.old; disk_after = D.faults disk.new; outlet_before = O.faults outlet.old; outlet_after = O.faults outlet.new }) (O.held outlet.old) (O.held outlet.new) result))) }
    ensures failed { WhereFeed result ((desk.new ≡ desk.old) × (disk.new ≡ disk.old) × (outlet.new ≡ outlet.old) × (F.agenda feed.new ≡ F.agenda feed.old)) }
    ensures ready { OnOk result (IsReady (kept_of desk.new.store.journal) desk.new.store.batch) }
    ensures steady { IsSteady desk.new.machine.state }
    ensures plain { IfOk result IsPlain }
    ensures key { desk.new.press.key ≡ desk.old.press.key }
    ensures same { IsSame (kept_of desk.old.store.journal) (kept_of desk.new.store.journal) }
    ensures disk_faults { DiskStops result (D.faults disk.old) (D.faults disk.new) }
    ensures outlet_faults { OutletStops result (O.faults outlet.old) (O.faults outlet.new) }
    ensures run { OnOutlet result ((kept_of desk.new.store.journal).stop ≡ None) }
    ensures unsaved { WhereUnsaved result (StandsStill (kept_of desk.new.store.journal) (D.may_leave disk.new) (D.seen disk.new)) }
    ensures feed_faults { FeedStops result (F.faults feed.old) (F.faults feed.new) }
    ensures loan { O.loan outlet.new ≡ O.loan outlet.old }
{
    desk.machine.bounds();
    if pends(&desk.machine) {
        return desk.use_clock(disk, outlet);
    }
    let mut buf = [0; 24576];
    let count = desk.machine.count();
    let running = runs(&desk.machine);
    match feed.next(count, running, &mut buf) {
        Ok(Due::Console(len)) => desk.take_console(disk, outlet, &buf[..len]),
        Ok(Due::Packet(len)) => take_packet(desk, disk, outlet, &buf[..len]),
        Ok(Due::Resend(peer)) => send_again(desk, disk, outlet, peer),
        Ok(Due::Later(until)) => go_on(desk, disk, feed, outlet, until),
        Ok(Due::End) => Ok(Turn::End),
        Err(_) => Err(Stop::FeedFault),
    }
}
