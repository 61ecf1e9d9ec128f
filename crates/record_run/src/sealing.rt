//! The seal of a run.

ghost use Rattle.std.specs.Prelude.{◌≡◌, ◌≢◌, None, Err, IfOk, IfSome, OnErr, OnOk};
ghost use Rattle.avm_outside.specs.Outside.{BothTold};
ghost use Rattle.journal_model.specs.Journal.{JournalData};
ghost use Rattle.jrnl_store.specs.Kept.{kept as kept_of};
ghost use Rattle.record_model.specs.Recorded.{HasEnded, Run};
ghost use Rattle.record_ready.specs.Ready.{IsDeskOf};
ghost use Rattle.record_run.specs.declared.stops.RunStop.TheVariants as run_stop;
ghost use Rattle.record_run.specs.Ends.{DiskEnds, OutletEnds, WhereCut, stop_for};
ghost use Rattle.record_run.specs.Runs.{HasDesk, sender_of};
ghost use Rattle.record_run.specs.Turned.{LeftByOne, SealEnds, sealed_by};
ghost use Rattle.record_store.specs.Open.{IsSame};
ghost use Rattle.record_store.specs.Saving.{StandsStill};
ghost use Rattle.record_turn.specs.Desk.{rows_of};
ghost use Rattle.recorder.specs.Recorder.{desk_of, stop_of};

use crate::RunStop;
use avm_outside::{Disk, Outlet};
use recorder::{Recorder, Sealed, Stop};

// What a seal came to. It asks no feed, and a recorder that hadn't stopped answers no Ended.
fn outcome(sealed: Sealed, drops: u64) -> Result<u64, RunStop>
    ensures { result ≡ sealed_by drops sealed }
{
    match sealed {
        Sealed::Done | Sealed::Again | Sealed::Stopped(Stop::FeedFault) | Sealed::Ended(_) => Ok(
            drops,
        ),
        Sealed::Stopped(Stop::LeavesSpent) => Err(RunStop::LeavesSpent),
        Sealed::Stopped(Stop::Full) => Err(RunStop::Full),
        Sealed::Stopped(Stop::DiskFault) => Err(RunStop::DiskFault),
        Sealed::Stopped(Stop::OutletFault) => Err(RunStop::OutletFault),
    }
}

/// Seals a run that has ended, which dropped so many events.
pub fn seal<D: Disk, O: Outlet>(
    recorder: &mut Recorder,
    disk: &mut D,
    outlet: &mut O,
    drops: u64,
) -> Result<u64, RunStop>
    requires open { stop_of recorder.old ≡ None }
    requires own { HasDesk (kept_of (desk_of recorder.old).store.journal) (rows_of (desk_of recorder.old).kept) (D.may_leave disk.old) (D.seen disk.old) }
    ensures seal { BothTold (D.seen disk.old) (D.seen disk.new) (λ was now. (j : JournalData) → IsDeskOf (kept_of (desk_of recorder.old).store.journal) (rows_of (desk_of recorder.old).kept) (D.may_leave disk.old) was j
        → (r : Run) → HasEnded r → r.recording ≡ record { journal = j; batch = (desk_of recorder.old).store.batch.parts; machine = (desk_of recorder.old).machine.state }
        → LeftByOne D.moment D.left_since disk.old disk.new (kept_of (desk_of recorder.new).store.journal) (rows_of (desk_of recorder.new).kept) (D.may_leave disk.new) now (sender_of (desk_of recorder.old)) r
        (λ next. SealEnds O.adding O.tearing (sender_of (desk_of recorder.old)) r (O.held outlet.old) (O.held outlet.new) (record { journal = next; batch = (desk_of recorder.new).store.batch.parts; machine = (desk_of recorder.new).machine.state }) result)) }
    ensures open { IfSome (D.seen disk.old) (λ was. OnOk result (stop_of recorder.new ≡ None)) }
    ensures answer { IfOk result (λ n. n ≡ drops) }
    ensures no_print { result ≢ Err run_stop.SinkFault }
    ensures stop { OnErr result (stop_of recorder.new ≡ stop_for result) }
    ensures key { (desk_of recorder.new).press.key ≡ (desk_of recorder.old).press.key }
    ensures same { IsSame (kept_of (desk_of recorder.old).store.journal) (kept_of (desk_of recorder.new).store.journal) }
    ensures disk_faults { DiskEnds result (D.faults disk.old) (D.faults disk.new) }
    ensures outlet_faults { OutletEnds result (O.faults outlet.old) (O.faults outlet.new) }
    ensures loan { O.loan outlet.new ≡ O.loan outlet.old }
    ensures unsaved { WhereCut result (StandsStill (kept_of (desk_of recorder.new).store.journal) (D.may_leave disk.new) (D.seen disk.new)) }
{
    let answer = recorder.seal(disk, outlet);
    outcome(answer, drops)
}
