//! Inputs that release nothing: they are saved where the batch gets large.

ghost use Rattle.std.specs.Prelude.{◌≡◌, ◌≤◌, ◌<◌, ◌^◌, ℕ, None, Some, IfOk, OnOk, length};
ghost use Rattle.avm_model.specs.Offer.{OfferConsole};
ghost use Rattle.avm_outside.specs.Outside.{BothTold};
ghost use Rattle.journal_model.specs.Journal.{JournalData};
ghost use Rattle.jrnl_store.specs.Kept.{kept as kept_of};
ghost use Rattle.jrnl_store.specs.Own.{IsOwn};
ghost use Rattle.record_batch.specs.Batch.{HasPlace};
ghost use Rattle.record_model.specs.Recording.{TakeIn, is_large as is_large_lem};
ghost use Rattle.record_parts.specs.Outs.{AreQuiet};
ghost use Rattle.record_store.specs.Open.{IsOpen, IsSame};
ghost use Rattle.record_store.specs.Saving.{StandsStill, WhereUnsaved};
ghost use Rattle.record_turn.specs.Desk.{HasDisk, IsReady, rows_of};
ghost use Rattle.record_turn.specs.Keeping.{aside_of};
ghost use Rattle.record_turn.specs.Leaves.{Acted, DiskCounts, IsPlain, Leaves, OnOutlet, OutletCounts, Settled};

use crate::desk::Desk;
use crate::finishing::has_numbers;
use avm_outside::{Disk, Outlet};
use record_machine::take_console;
use record_parts::{Stop, Turn};

impl Desk {
    /// Saves the batch where it is large.
    pub fn settle<D: Disk>(&mut self, disk: &mut D) -> Result<(), Stop>
        requires own { HasDisk (kept_of self.old.store.journal) (D.may_leave disk.old) (D.seen disk.old) }
        requires open { IsOpen (kept_of self.old.store.journal) self.old.store.batch }
        requires quiet { AreQuiet self.old.store.batch.parts }
        requires place { HasPlace 0 self.old.store.batch }
        ensures settled { BothTold (D.seen disk.old) (D.seen disk.new) (λ was now. (j : JournalData) → IsOwn (kept_of self.old.store.journal) (D.may_leave disk.old) was j
            → Leaves D.moment D.left_since disk.old disk.new (kept_of self.new.store.journal) (D.may_leave disk.new) now j
            (Settled j self.old.store.batch.parts self.new.store.batch.parts (D.faults disk.old) (D.faults disk.new) result)) }
        ensures ready { OnOk result (IsReady (kept_of self.new.store.journal) self.new.store.batch) }
        ensures machine { self.new.machine ≡ self.old.machine }
        ensures kept { rows_of self.new.kept ≡ rows_of self.old.kept }
        ensures key { self.new.press.key ≡ self.old.press.key }
        ensures same { IsSame (kept_of self.old.store.journal) (kept_of self.new.store.journal) }
        ensures disk_faults { DiskCounts (D.faults disk.old) (D.faults disk.new) result }
        ensures outlet_faults { (n : ℕ) → OutletCounts n n result }
        ensures run { OnOutlet result ((kept_of self.new.store.journal).stop ≡ None) }
        ensures unsaved { WhereUnsaved result (StandsStill (kept_of self.new.store.journal) (D.may_leave disk.new) (D.seen disk.new)) }
    {
        if !self.store.batch.is_large() {
            return Ok(());
        }
        match self.store.save(disk) {
            Ok(_) => Ok(()),
            Err(stop) => Err(stop),
        }
    }

    /// Takes console bytes, or drops them where the machine refuses them. The outlet isn't called.
    pub fn take_console<D: Disk, O: Outlet>(
        &mut self,
        disk: &mut D,
        outlet: &O,
        bytes: &[u8],
    ) -> Result<Turn, Stop>
        requires own { HasDisk (kept_of self.old.store.journal) (D.may_leave disk.old) (D.seen disk.old) }
        requires ready { IsReady (kept_of self.old.store.journal) self.old.store.batch }
        requires some { 1 ≤ length bytes.now }
        requires few { length bytes.now ≤ 256 }
        requires count { self.old.machine.state.count < 2 ^ 62 }
        ensures acts { BothTold (D.seen disk.old) (D.seen disk.new) (λ was now. (j : JournalData) → IsOwn (kept_of self.old.store.journal) (D.may_leave disk.old) was j
            → Leaves D.moment D.left_since disk.old disk.new (kept_of self.new.store.journal) (D.may_leave disk.new) now j
            (Acted O.adding O.tearing (record { key = self.old.press.key; own = self.new.machine.state.devices.own }) 0 (TakeIn (Some (OfferConsole bytes.now))) (record { journal = j; batch = self.old.store.batch.parts; machine = self.old.machine.state }) (aside_of self.old.kept self.old.machine) (aside_of self.new.kept self.new.machine) self.new.store.batch.parts self.new.machine.state (record { disk_before = D.faults disk.old; disk_after = D.faults disk.new; outlet_before = O.faults outlet.now; outlet_after = O.faults outlet.now }) (O.held outlet.now) (O.held outlet.now) result)) }
        ensures ready { OnOk result (IsReady (kept_of self.new.store.journal) self.new.store.batch) }
        ensures plain { IfOk result IsPlain }
        ensures clock { self.new.machine.state.devices.clock ≡ self.old.machine.state.devices.clock }
        ensures key { self.new.press.key ≡ self.old.press.key }
        ensures same { IsSame (kept_of self.old.store.journal) (kept_of self.new.store.journal) }
        ensures disk_faults { DiskCounts (D.faults disk.old) (D.faults disk.new) result }
        ensures outlet_faults { OutletCounts (O.faults outlet.now) (O.faults outlet.now) result }
        ensures run { OnOutlet result ((kept_of self.new.store.journal).stop ≡ None) }
        ensures unsaved { WhereUnsaved result (StandsStill (kept_of self.new.store.journal) (D.may_leave disk.new) (D.seen disk.new)) }
    {
        has_numbers(&self.store);
        match take_console(&mut self.store.batch, &mut self.machine, bytes) {
            Ok(()) => {}
            Err(why) => return Ok(Turn::Dropped(why)),
        }
        match self.settle(disk) {
            Ok(()) => Ok(Turn::Took),
            Err(stop) => Err(stop),
        }
    }
}
