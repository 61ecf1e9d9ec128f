//! A step that was made: it is written, saved where its batch closes, and only then released.

ghost use Rattle.std.specs.Prelude.{◌≡◌, ◌⊎◌, ◌+◌, ◌≤◌, ◌<◌, ◌^◌, ℕ, [], true, false, None, IfSome, IfOk, OnOk};
ghost use Rattle.std.specs.Bool.{OnTrue, OnFalse};
ghost use Rattle.avm_model.specs.Machine.{State};
ghost use Rattle.avm_model.specs.Parts.{IsOrdinal};
ghost use Rattle.avm_outside.specs.Outside.{BothTold};
ghost use Rattle.journal_model.specs.Journal.{JournalData};
ghost use Rattle.jrnl_store.specs.Kept.{kept as kept_of};
ghost use Rattle.jrnl_store.specs.Own.{IsOwn};
ghost use Rattle.record_batch.specs.Batch.{HasPlace, batch_size};
ghost use Rattle.record_model.specs.Recording.{is_large as is_large_lem};
ghost use Rattle.record_parts.specs.Outs.{AreQuiet, outs_made};
ghost use Rattle.record_store.specs.Open.{IsOpen, IsSame};
ghost use Rattle.record_store.specs.Saving.{StandsStill, WhereUnsaved};
ghost use Rattle.record_turn.specs.Keeping.{aside_of};
ghost use Rattle.record_turn.specs.Leaves.{DiskCounts, Finished, Leaves, OnOutlet, OutletCounts};

use crate::desk::Desk;
use crate::releasing::release_outs;
use avm_outside::{Disk, Outlet};
use guest_machine::{Machine, Outs};
use record_batch::Batch;
use record_kept::keep_outs;
use record_machine::put_outs;
use record_parts::Stop;
use record_store::Store;

/// Whether a batch closes behind the outputs of a step.
fn closes(batch: &Batch, outs: &Outs) -> bool
    ensures loud { OnTrue result ((s : State) → (outs_made s outs.now ≡ [] → ⊥) ⊎ (is_large_lem batch.now.parts ≡ true)) }
    ensures quiet { OnFalse result ((s : State) → outs_made s outs.now ≡ []) }
    ensures small { OnFalse result (is_large_lem batch.now.parts ≡ false) }
{
    if !outs.is_empty() {
        return true;
    }
    batch.is_large()
}

/// Does nothing. Its clause says that numbers are left for what a step puts out.
pub fn has_numbers(store: &Store)
    requires open { IsOpen (kept_of store.now.journal) store.now.batch }
    requires place { batch_size store.now.batch ≤ 2 ^ 25 }
    ensures number { IsOrdinal store.now.batch.next }
    ensures more { store.now.batch.next + 4 < 2 ^ 62 }
{
    let _last = store.journal.last();
}

impl Desk {
    /// Adds the outputs of the step that was made to the batch. Where it closes it is saved, and then its outputs are released.
    pub(crate) fn finish<D: Disk, O: Outlet>(
        &mut self,
        disk: &mut D,
        outlet: &mut O,
    ) -> Result<(), Stop>
        requires own { IfSome (D.seen disk.old) (λ was. (j : JournalData) × IsOwn (kept_of self.old.store.journal) (D.may_leave disk.old) was j) }
        requires open { IsOpen (kept_of self.old.store.journal) self.old.store.batch }
        requires quiet { AreQuiet self.old.store.batch.parts }
        requires place { HasPlace 16807868 self.old.store.batch }
        requires clock { self.old.machine.state.devices.clock ≡ None }
        requires count { self.old.machine.state.count < 2 ^ 62 }
        ensures ends { BothTold (D.seen disk.old) (D.seen disk.new) (λ was now. (j : JournalData) → IsOwn (kept_of self.old.store.journal) (D.may_leave disk.old) was j
            → Leaves D.moment D.left_since disk.old disk.new (kept_of self.new.store.journal) (D.may_leave disk.new) now j
            (Finished O.adding O.tearing (record { key = self.old.press.key; own = self.new.machine.state.devices.own }) (record { journal = j; batch = self.old.store.batch.parts; machine = self.old.machine.state }) (outs_made self.old.machine.state self.old.outs) (aside_of self.old.kept self.old.machine) (aside_of self.new.kept self.new.machine) self.new.store.batch.parts self.new.machine.state (record { disk_before = D.faults disk.old; disk_after = D.faults disk.new; outlet_before = O.faults outlet.old; outlet_after = O.faults outlet.new }) (O.held outlet.old) (O.held outlet.new) result)) }
        ensures open { OnOk result (IsOpen (kept_of self.new.store.journal) self.new.store.batch) }
        ensures quiet { OnOk result (AreQuiet self.new.store.batch.parts) }
        ensures small { OnOk result (is_large_lem self.new.store.batch.parts ≡ false) }
        ensures state { self.new.machine.state ≡ self.old.machine.state }
        ensures key { self.new.press.key ≡ self.old.press.key }
        ensures same { IsSame (kept_of self.old.store.journal) (kept_of self.new.store.journal) }
        ensures disk_faults { DiskCounts (D.faults disk.old) (D.faults disk.new) result }
        ensures outlet_faults { OutletCounts (O.faults outlet.old) (O.faults outlet.new) result }
        ensures run { OnOutlet result ((kept_of self.new.store.journal).stop ≡ None) }
        ensures unsaved { WhereUnsaved result (StandsStill (kept_of self.new.store.journal) (D.may_leave disk.new) (D.seen disk.new)) }
        ensures loan { O.loan outlet.new ≡ O.loan outlet.old }
    {
        has_numbers(&self.store);
        put_outs(
            &mut self.store.batch,
            &mut self.machine,
            &mut self.tree,
            &mut self.drafts,
            self.all,
            &self.outs,
        );
        self.all = self.all && !self.outs.snap;
        if !closes(&self.store.batch, &self.outs) {
            return Ok(());
        }
        let ticket = match self.store.save(disk) {
            Ok(ticket) => ticket,
            Err(stop) => return Err(stop),
        };
        keep_outs(&mut self.kept, &self.outs, ticket);
        match release_outs(outlet, &mut self.press, &self.machine, &self.outs, ticket) {
            Ok(()) => Ok(()),
            Err(_) => Err(Stop::OutletFault),
        }
    }
}
