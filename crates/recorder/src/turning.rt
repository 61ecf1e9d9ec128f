//! Turns and seals, and what stops them.

ghost use Rattle.std.specs.Prelude.{◌≡◌, ℕ, None, Some, is_some};
ghost use Rattle.avm_outside.specs.Outside.{BothTold};
ghost use Rattle.journal_model.specs.Journal.{JournalData};
ghost use Rattle.jrnl_store.specs.Kept.{kept as kept_of};
ghost use Rattle.jrnl_store.specs.Own.{IsOwn};
ghost use Rattle.jrnl_store.specs.declared.fault.Stop.{Stop};
ghost use Rattle.record_model.specs.Turn.{Gift};
ghost use Rattle.record_parts.specs.declared.answers.Sealed.TheVariants.{Ended as SealEnded};
ghost use Rattle.record_parts.specs.declared.answers.Turn.TheVariants.{Ended};
ghost use Rattle.record_ready.specs.Ready.{IsDeskOf};
ghost use Rattle.record_store.specs.Open.{IsSame};
ghost use Rattle.record_store.specs.Saving.{StandsStill, WhereUnsaved};
ghost use Rattle.record_turn.specs.Desk.{HasDisk, rows_of};
ghost use Rattle.record_turn.specs.Keeping.{aside_of};
ghost use Rattle.record_turn.specs.Leaves.{Leaves, OnOutlet, Seals};
ghost use Rattle.recorder.specs.Recorder.{desk_of, stop_of};
ghost use Rattle.recorder.specs.Turns.{DiskStops, Feeds, FeedStops, OutletStops, Planned, UnlessFeed, WhereFeed, result_of, seal_result, stop_behind};

use crate::asking::turn_on;
use crate::recorder::Recorder;
use avm_outside::{Disk, Feed, Outlet};
use record_parts::{Sealed, Turn};

impl Recorder {
    /// One turn: the step that uses a pending clock value, an event of the feed, or steps until something comes of them; at most
    /// 65,536. What it adds to the journal is saved, and only then released. It takes no memory.
    ///
    /// `Stopped` tells which fault stopped it; from then on each call answers `Ended`, and nothing changes any more.
    pub fn turn<D: Disk, F: Feed, O: Outlet>(
        &mut self,
        disk: &mut D,
        feed: &mut F,
        outlet: &mut O,
    ) -> Turn
        requires own { stop_of self.old ≡ None → HasDisk (kept_of (desk_of self.old).store.journal) (D.may_leave disk.old) (D.seen disk.old) }
        ensures turns { stop_of self.old ≡ None → UnlessFeed (result_of result) ((gift : Gift) × (value : ℕ) × BothTold (F.agenda feed.old) (F.agenda feed.new) (Feeds (is_some (desk_of self.old).machine.state.devices.clock) F.answer (desk_of self.old).machine.state gift value)
            × BothTold (D.seen disk.old) (D.seen disk.new) (λ was now. (j : JournalData) → IsDeskOf (kept_of (desk_of self.old).store.journal) (rows_of (desk_of self.old).kept) (D.may_leave disk.old) was j
            → Leaves D.moment D.left_since disk.old disk.new (kept_of (desk_of self.new).store.journal) (D.may_leave disk.new) now j
            (Planned O.adding O.tearing (record { key = (desk_of self.old).press.key; own = (desk_of self.new).machine.state.devices.own }) gift value (record { journal = j; batch = (desk_of self.old).store.batch.parts; machine = (desk_of self.old).machine.state }) (aside_of (desk_of self.old).kept (desk_of self.old).machine) (aside_of (desk_of self.new).kept (desk_of self.new).machine) (desk_of self.new).store.batch.parts (desk_of self.new).machine.state (record { disk_before = D.faults disk.old; disk_after = D.faults disk.new; outlet_before = O.faults outlet.old; outlet_after = O.faults outlet.new }) (O.held outlet.old) (O.held outlet.new) (result_of result)))) }
        ensures failed { stop_of self.old ≡ None → WhereFeed (result_of result) ((desk_of self.new ≡ desk_of self.old) × (disk.new ≡ disk.old) × (outlet.new ≡ outlet.old) × (F.agenda feed.new ≡ F.agenda feed.old)) }
        ensures ended { (stop : Stop) → stop_of self.old ≡ Some stop → (result ≡ Ended stop) × (desk_of self.new ≡ desk_of self.old) × (disk.new ≡ disk.old) × (feed.new ≡ feed.old) × (outlet.new ≡ outlet.old) }
        ensures stop { stop_of self.new ≡ stop_behind (stop_of self.old) (result_of result) }
        ensures key { (desk_of self.new).press.key ≡ (desk_of self.old).press.key }
        ensures same { IsSame (kept_of (desk_of self.old).store.journal) (kept_of (desk_of self.new).store.journal) }
        ensures disk_faults { DiskStops (result_of result) (D.faults disk.old) (D.faults disk.new) }
        ensures outlet_faults { OutletStops (result_of result) (O.faults outlet.old) (O.faults outlet.new) }
        ensures run { OnOutlet (result_of result) ((kept_of (desk_of self.new).store.journal).stop ≡ None) }
        ensures unsaved { WhereUnsaved (result_of result) (StandsStill (kept_of (desk_of self.new).store.journal) (D.may_leave disk.new) (D.seen disk.new)) }
        ensures feed_faults { FeedStops (result_of result) (F.faults feed.old) (F.faults feed.new) }
        ensures loan { O.loan outlet.new ≡ O.loan outlet.old }
    {
        match self.stop {
            Some(stop) => return Turn::Ended(stop),
            None => {}
        }
        match turn_on(&mut self.desk, disk, feed, outlet) {
            Ok(turn) => turn,
            Err(stop) => {
                self.stop = Some(stop);
                Turn::Stopped(stop)
            }
        }
    }

    /// Saves the batch with a seal, and then releases the authenticator of the last entry. Where nothing is open and the last
    /// item is a seal, its authenticator is released again. It takes no memory.
    pub fn seal<D: Disk, O: Outlet>(&mut self, disk: &mut D, outlet: &mut O) -> Sealed
        requires own { stop_of self.old ≡ None → HasDisk (kept_of (desk_of self.old).store.journal) (D.may_leave disk.old) (D.seen disk.old) }
        ensures seals { stop_of self.old ≡ None → BothTold (D.seen disk.old) (D.seen disk.new) (λ was now. (j : JournalData) → IsOwn (kept_of (desk_of self.old).store.journal) (D.may_leave disk.old) was j
            → Leaves D.moment D.left_since disk.old disk.new (kept_of (desk_of self.new).store.journal) (D.may_leave disk.new) now j
            (Seals O.adding O.tearing (record { key = (desk_of self.old).press.key; own = (desk_of self.old).machine.state.devices.own }) (record { journal = j; batch = (desk_of self.old).store.batch.parts; machine = (desk_of self.old).machine.state }) (rows_of (desk_of self.old).kept) (desk_of self.new).store.batch.parts (record { disk_before = D.faults disk.old; disk_after = D.faults disk.new; outlet_before = O.faults outlet.old; outlet_after = O.faults outlet.new }) (O.held outlet.old) (O.held outlet.new) (seal_result result))) }
        ensures ended { (stop : Stop) → stop_of self.old ≡ Some stop → (result ≡ SealEnded stop) × (desk_of self.new ≡ desk_of self.old) × (disk.new ≡ disk.old) × (outlet.new ≡ outlet.old) }
        ensures stop { stop_of self.new ≡ stop_behind (stop_of self.old) (seal_result result) }
        ensures machine { (desk_of self.new).machine ≡ (desk_of self.old).machine }
        ensures kept { rows_of (desk_of self.new).kept ≡ rows_of (desk_of self.old).kept }
        ensures key { (desk_of self.new).press.key ≡ (desk_of self.old).press.key }
        ensures same { IsSame (kept_of (desk_of self.old).store.journal) (kept_of (desk_of self.new).store.journal) }
        ensures disk_faults { DiskStops (seal_result result) (D.faults disk.old) (D.faults disk.new) }
        ensures outlet_faults { OutletStops (seal_result result) (O.faults outlet.old) (O.faults outlet.new) }
        ensures run { OnOutlet (seal_result result) ((kept_of (desk_of self.new).store.journal).stop ≡ None) }
        ensures unsaved { WhereUnsaved (seal_result result) (StandsStill (kept_of (desk_of self.new).store.journal) (D.may_leave disk.new) (D.seen disk.new)) }
        ensures loan { O.loan outlet.new ≡ O.loan outlet.old }
    {
        match self.stop {
            Some(stop) => return Sealed::Ended(stop),
            None => {}
        }
        match self.desk.seal(disk, outlet) {
            Ok(sealed) => sealed,
            Err(why) => {
                self.stop = Some(why);
                Sealed::Stopped(why)
            }
        }
    }
}
