//! A whole run.

ghost use Rattle.std.specs.Prelude.{◌≡◌, List, [], None, IfSome, OnErr, OnOk};
ghost use Rattle.avm_outside.specs.Outside.{BothTold};
ghost use Rattle.avm_script.specs.Feeds.{script_agenda};
ghost use Rattle.journal_model.specs.Journal.{JournalData};
ghost use Rattle.jrnl_store.specs.Kept.{kept as kept_of};
ghost use Rattle.record_model.specs.Recorded.{Drop, running};
ghost use Rattle.record_ready.specs.Ready.{IsDeskOf};
ghost use Rattle.record_run.specs.Ends.{DiskEnds, OutletEnds, Says, WhereCut, stop_for};
ghost use Rattle.record_run.specs.Feeds.{sure_agenda};
ghost use Rattle.record_run.specs.Runs.{HasDesk, LeftBy, RunEnds, sender_of};
ghost use Rattle.record_run.specs.Turned.{TurnsEnd};
ghost use Rattle.record_store.specs.Open.{IsSame};
ghost use Rattle.record_store.specs.Saving.{StandsStill};
ghost use Rattle.record_turn.specs.Desk.{rows_of};
ghost use Rattle.recorder.specs.Recorder.{desk_of, stop_of};

use crate::RunStop;
use crate::feeding::SureFeed;
use crate::sealing::seal;
use crate::turning::{Turned, turn_on};
use avm_outside::{Disk, Outlet, Sink};
use avm_script::ScriptFeed;
use recorder::Recorder;

// Makes turns until the script is over, and gives how many events were dropped.
fn turns<D: Disk, O: Outlet, S: Sink>(
    recorder: &mut Recorder,
    disk: &mut D,
    feed: &mut SureFeed,
    outlet: &mut O,
    out: &mut S,
) -> Result<u64, RunStop>
    requires open { stop_of recorder.old ≡ None }
    requires own { HasDesk (kept_of (desk_of recorder.old).store.journal) (rows_of (desk_of recorder.old).kept) (D.may_leave disk.old) (D.seen disk.old) }
    ensures runs { (drops : List Drop) × Says drops result (S.faults out.old) (S.faults out.new) (S.written out.old) (S.written out.new)
        × BothTold (D.seen disk.old) (D.seen disk.new) (λ was now. (j : JournalData) → IsDeskOf (kept_of (desk_of recorder.old).store.journal) (rows_of (desk_of recorder.old).kept) (D.may_leave disk.old) was j
        → LeftBy D.moment D.left_since disk.old disk.new (kept_of (desk_of recorder.new).store.journal) (rows_of (desk_of recorder.new).kept) (D.may_leave disk.new) now (sender_of (desk_of recorder.old)) (running j (desk_of recorder.old).store.batch.parts (sure_agenda feed.old) [] [] (desk_of recorder.old).machine.state)
        (λ next. TurnsEnd O.adding O.tearing (sender_of (desk_of recorder.old)) (running j (desk_of recorder.old).store.batch.parts (sure_agenda feed.old) [] [] (desk_of recorder.old).machine.state) drops (O.held outlet.old) (O.held outlet.new) (record { journal = next; batch = (desk_of recorder.new).store.batch.parts; machine = (desk_of recorder.new).machine.state }) result)) }
    ensures stop { stop_of recorder.new ≡ stop_for result }
    ensures key { (desk_of recorder.new).press.key ≡ (desk_of recorder.old).press.key }
    ensures same { IsSame (kept_of (desk_of recorder.old).store.journal) (kept_of (desk_of recorder.new).store.journal) }
    ensures disk_faults { DiskEnds result (D.faults disk.old) (D.faults disk.new) }
    ensures outlet_faults { OutletEnds result (O.faults outlet.old) (O.faults outlet.new) }
    ensures loan { O.loan outlet.new ≡ O.loan outlet.old }
    ensures unsaved { WhereCut result (StandsStill (kept_of (desk_of recorder.new).store.journal) (D.may_leave disk.new) (D.seen disk.new)) }
{
    let mut drops = 0;
    // each turn makes a step or takes an event, and no script has so many: the range is never used up
    for _made in 0..u64::MAX {
        match turn_on(recorder, disk, feed, outlet, out) {
            Ok(Turned::Went) => continue,
            Ok(Turned::Dropped(_)) => drops += 1,
            Ok(Turned::Over) => return Ok(drops),
            Err(stop) => return Err(stop),
        }
    }
    recorder.machine().bounds();
    Ok(drops)
}

/// Makes turns until the script is over, prints a line for each event that is dropped as it comes, and seals. It gives how many
/// events were dropped, and takes no memory.
///
/// `LeavesSpent` and `Full` come where a batch can't be saved, that with the seal too; the others where a call on the disk, the
/// outlet or the sink failed. Any of them ends the run at once: no further turn is made, and nothing is sealed. What was
/// released and printed before stays.
pub fn run<D: Disk, O: Outlet, S: Sink>(
    recorder: &mut Recorder,
    disk: &mut D,
    feed: ScriptFeed,
    outlet: &mut O,
    out: &mut S,
) -> Result<u64, RunStop>
    requires open { stop_of recorder.old ≡ None }
    requires own { HasDesk (kept_of (desk_of recorder.old).store.journal) (rows_of (desk_of recorder.old).kept) (D.may_leave disk.old) (D.seen disk.old) }
    ensures runs { (drops : List Drop) × Says drops result (S.faults out.old) (S.faults out.new) (S.written out.old) (S.written out.new)
        × BothTold (D.seen disk.old) (D.seen disk.new) (λ was now. (j : JournalData) → IsDeskOf (kept_of (desk_of recorder.old).store.journal) (rows_of (desk_of recorder.old).kept) (D.may_leave disk.old) was j
        → LeftBy D.moment D.left_since disk.old disk.new (kept_of (desk_of recorder.new).store.journal) (rows_of (desk_of recorder.new).kept) (D.may_leave disk.new) now (sender_of (desk_of recorder.old)) (running j (desk_of recorder.old).store.batch.parts (script_agenda feed) [] [] (desk_of recorder.old).machine.state)
        (λ next. RunEnds O.adding O.tearing (sender_of (desk_of recorder.old)) (running j (desk_of recorder.old).store.batch.parts (script_agenda feed) [] [] (desk_of recorder.old).machine.state) drops (O.held outlet.old) (O.held outlet.new) (record { journal = next; batch = (desk_of recorder.new).store.batch.parts; machine = (desk_of recorder.new).machine.state }) result)) }
    ensures open { IfSome (D.seen disk.old) (λ was. OnOk result (stop_of recorder.new ≡ None)) }
    ensures stop { OnErr result (stop_of recorder.new ≡ stop_for result) }
    ensures key { (desk_of recorder.new).press.key ≡ (desk_of recorder.old).press.key }
    ensures same { IsSame (kept_of (desk_of recorder.old).store.journal) (kept_of (desk_of recorder.new).store.journal) }
    ensures disk_faults { DiskEnds result (D.faults disk.old) (D.faults disk.new) }
    ensures outlet_faults { OutletEnds result (O.faults outlet.old) (O.faults outlet.new) }
    ensures loan { O.loan outlet.new ≡ O.loan outlet.old }
    ensures unsaved { WhereCut result (StandsStill (kept_of (desk_of recorder.new).store.journal) (D.may_leave disk.new) (D.seen disk.new)) }
{
    let mut feed = SureFeed::new(feed);
    let drops = match turns(recorder, disk, &mut feed, outlet, out) {
        Ok(drops) => drops,
        Err(stop) => return Err(stop),
    };
    seal(recorder, disk, outlet, drops)
}
