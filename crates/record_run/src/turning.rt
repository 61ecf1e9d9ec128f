//! One turn of a run, and the line of the event that it drops.

ghost use Rattle.std.specs.Prelude.{◌≡◌, ◌≢◌, List, [], ◌∷◌, None, Err, OnErr, OnOk};
ghost use Rattle.avm_outside.specs.Outside.{BothTold};
ghost use Rattle.journal_model.specs.Journal.{JournalData};
ghost use Rattle.jrnl_store.specs.Kept.{kept as kept_of};
ghost use Rattle.jrnl_store.specs.declared.fault.Stop.TheVariants as stops;
ghost use Rattle.record_model.specs.Recorded.{Drop, Run};
ghost use Rattle.record_parts.specs.declared.answers.Turn.TheVariants as turns;
ghost use Rattle.record_ready.specs.Ready.{IsDeskOf};
ghost use Rattle.record_run.specs.Ends.{DiskEnds, OutletEnds, WhereCut, stop_for};
ghost use Rattle.record_run.specs.Feeds.{sure_agenda};
ghost use Rattle.record_run.specs.Lines.{drop_lines};
ghost use Rattle.record_run.specs.Runs.{HasDesk, sender_of};
ghost use Rattle.record_run.specs.Turned.{LeftByOne, SaysTurn, TurnEnds, drops_by, stopped_by, turned_by};
ghost use Rattle.record_run.specs.declared.stops.RunStop.TheVariants as run_stop;
ghost use Rattle.record_store.specs.Open.{IsSame};
ghost use Rattle.record_store.specs.Saving.{StandsStill};
ghost use Rattle.record_turn.specs.Desk.{rows_of};
ghost use Rattle.recorder.specs.Recorder.{desk_of, stop_of};
ghost use Rattle.command_parts.specs.Printing.{Prints, PrintsCut};

use crate::RunStop;
use crate::dropping::drop_line;
use crate::feeding::SureFeed;
use avm_model::NotTaken;
use avm_outside::{Disk, Failed, Outlet, Sink};
use recorder::{Recorder, Stop, Turn};

/// What a turn came to.
#[derive(Clone, Copy)]
pub enum Turned {
    /// The machine went on, or an event was taken.
    Went,
    /// An event was dropped.
    Dropped(NotTaken),
    /// The script is over.
    Over,
}

/// Why a run stops where the recorder does.
pub fn stopped(stop: Stop) -> RunStop
    requires { stop ≢ stops.FeedFault }
    ensures { result ≡ stopped_by stop }
{
    match stop {
        Stop::LeavesSpent => RunStop::LeavesSpent,
        Stop::Full => RunStop::Full,
        Stop::DiskFault => RunStop::DiskFault,
        Stop::OutletFault => RunStop::OutletFault,
        Stop::FeedFault => unreachable!(),
    }
}

// What a recorder's turn came to. With a script's feed the machine never waits where no event remains; and a recorder that
// hadn't stopped answers no Ended.
fn outcome(turn: Turn) -> Result<Turned, RunStop>
    requires { turn ≢ turns.Stopped stops.FeedFault }
    ensures { result ≡ turned_by turn }
{
    match turn {
        Turn::Ran(_) | Turn::Took | Turn::Resent => Ok(Turned::Went),
        Turn::Dropped(why) => Ok(Turned::Dropped(why)),
        Turn::Waiting | Turn::Halted | Turn::End | Turn::Ended(_) => Ok(Turned::Over),
        Turn::Stopped(stop) => Err(stopped(stop)),
    }
}

// One turn of the recorder.
fn take_turn<D: Disk, O: Outlet>(
    recorder: &mut Recorder,
    disk: &mut D,
    feed: &mut SureFeed,
    outlet: &mut O,
) -> Result<Turned, RunStop>
    requires open { stop_of recorder.old ≡ None }
    requires own { HasDesk (kept_of (desk_of recorder.old).store.journal) (rows_of (desk_of recorder.old).kept) (D.may_leave disk.old) (D.seen disk.old) }
    ensures turn { BothTold (D.seen disk.old) (D.seen disk.new) (λ was now. (j : JournalData) → IsDeskOf (kept_of (desk_of recorder.old).store.journal) (rows_of (desk_of recorder.old).kept) (D.may_leave disk.old) was j
        → (r : Run) → r.stop ≡ None → r.recording ≡ record { journal = j; batch = (desk_of recorder.old).store.batch.parts; machine = (desk_of recorder.old).machine.state } → r.script ≡ sure_agenda feed.old
        → LeftByOne D.moment D.left_since disk.old disk.new (kept_of (desk_of recorder.new).store.journal) (rows_of (desk_of recorder.new).kept) (D.may_leave disk.new) now (sender_of (desk_of recorder.old)) r
        (λ next. TurnEnds O.adding O.tearing (sender_of (desk_of recorder.old)) r (drops_by (desk_of recorder.old).machine.state.count result) result (O.held outlet.old) (O.held outlet.new) (record { journal = next; batch = (desk_of recorder.new).store.batch.parts; machine = (desk_of recorder.new).machine.state }) (sure_agenda feed.new))) }
    ensures no_print { result ≢ Err run_stop.SinkFault }
    ensures stop { stop_of recorder.new ≡ stop_for result }
    ensures key { (desk_of recorder.new).press.key ≡ (desk_of recorder.old).press.key }
    ensures same { IsSame (kept_of (desk_of recorder.old).store.journal) (kept_of (desk_of recorder.new).store.journal) }
    ensures disk_faults { DiskEnds result (D.faults disk.old) (D.faults disk.new) }
    ensures outlet_faults { OutletEnds result (O.faults outlet.old) (O.faults outlet.new) }
    ensures loan { O.loan outlet.new ≡ O.loan outlet.old }
    ensures unsaved { WhereCut result (StandsStill (kept_of (desk_of recorder.new).store.journal) (D.may_leave disk.new) (D.seen disk.new)) }
{
    let turn = recorder.turn(disk, feed, outlet);
    outcome(turn)
}

// Prints the line of an event that was dropped at a count.
fn print_drop<S: Sink>(out: &mut S, why: NotTaken, count: u64) -> Result<(), Failed>
    ensures printed { OnOk result (Prints (drop_lines (record { why = why; count = count } ∷ [])) (S.faults out.old) (S.faults out.new) (S.written out.old) (S.written out.new)) }
    ensures cut { OnErr result (PrintsCut (drop_lines (record { why = why; count = count } ∷ [])) (S.faults out.old) (S.faults out.new) (S.written out.old) (S.written out.new)) }
{
    out.write(drop_line(why, count).as_bytes())
}

/// One turn of the recorder, and the line of the event that it drops.
pub fn turn_on<D: Disk, O: Outlet, S: Sink>(
    recorder: &mut Recorder,
    disk: &mut D,
    feed: &mut SureFeed,
    outlet: &mut O,
    out: &mut S,
) -> Result<Turned, RunStop>
    requires open { stop_of recorder.old ≡ None }
    requires own { HasDesk (kept_of (desk_of recorder.old).store.journal) (rows_of (desk_of recorder.old).kept) (D.may_leave disk.old) (D.seen disk.old) }
    ensures turn { (drops : List Drop) × SaysTurn drops result (S.faults out.old) (S.faults out.new) (S.written out.old) (S.written out.new)
        × BothTold (D.seen disk.old) (D.seen disk.new) (λ was now. (j : JournalData) → IsDeskOf (kept_of (desk_of recorder.old).store.journal) (rows_of (desk_of recorder.old).kept) (D.may_leave disk.old) was j
        → (r : Run) → r.stop ≡ None → r.recording ≡ record { journal = j; batch = (desk_of recorder.old).store.batch.parts; machine = (desk_of recorder.old).machine.state } → r.script ≡ sure_agenda feed.old
        → LeftByOne D.moment D.left_since disk.old disk.new (kept_of (desk_of recorder.new).store.journal) (rows_of (desk_of recorder.new).kept) (D.may_leave disk.new) now (sender_of (desk_of recorder.old)) r
        (λ next. TurnEnds O.adding O.tearing (sender_of (desk_of recorder.old)) r drops result (O.held outlet.old) (O.held outlet.new) (record { journal = next; batch = (desk_of recorder.new).store.batch.parts; machine = (desk_of recorder.new).machine.state }) (sure_agenda feed.new))) }
    ensures stop { stop_of recorder.new ≡ stop_for result }
    ensures key { (desk_of recorder.new).press.key ≡ (desk_of recorder.old).press.key }
    ensures same { IsSame (kept_of (desk_of recorder.old).store.journal) (kept_of (desk_of recorder.new).store.journal) }
    ensures disk_faults { DiskEnds result (D.faults disk.old) (D.faults disk.new) }
    ensures outlet_faults { OutletEnds result (O.faults outlet.old) (O.faults outlet.new) }
    ensures loan { O.loan outlet.new ≡ O.loan outlet.old }
    ensures unsaved { WhereCut result (StandsStill (kept_of (desk_of recorder.new).store.journal) (D.may_leave disk.new) (D.seen disk.new)) }
{
    let count = recorder.machine().count();
    match take_turn(recorder, disk, feed, outlet) {
        Ok(Turned::Went) => Ok(Turned::Went),
        Ok(Turned::Over) => Ok(Turned::Over),
        Ok(Turned::Dropped(why)) => match print_drop(out, why, count) {
            Ok(()) => Ok(Turned::Dropped(why)),
            Err(Failed) => Err(RunStop::SinkFault),
        },
        Err(stop) => Err(stop),
    }
}
