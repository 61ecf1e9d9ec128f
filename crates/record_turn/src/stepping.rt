//! Turns that make steps.

ghost use Rattle.std.specs.Prelude.{◌≡◌, ◌-◌, ◌<◌, ◌^◌, true, None, IfOk, OnOk, is_some};
ghost use Rattle.avm_model.specs.Machine.{asks};
ghost use Rattle.avm_outside.specs.Outside.{BothTold};
ghost use Rattle.journal_model.specs.Journal.{JournalData};
ghost use Rattle.jrnl_store.specs.Kept.{kept as kept_of};
ghost use Rattle.jrnl_store.specs.Own.{IsOwn};
ghost use Rattle.record_model.specs.Recording.{AnswerClock, StepOn};
ghost use Rattle.record_model.specs.Turn.{goes_on};
ghost use Rattle.record_store.specs.Open.{IsSame};
ghost use Rattle.record_store.specs.Saving.{StandsStill, WhereUnsaved};
ghost use Rattle.record_turn.specs.Desk.{HasDisk, IsReady};
ghost use Rattle.record_turn.specs.Keeping.{aside_of};
ghost use Rattle.record_turn.specs.Leaves.{Acted, DiskCounts, IsPlain, Leaves, OnOutlet, OutletCounts, Spelled};

use crate::desk::Desk;
use crate::finishing::has_numbers;
use avm_outside::{Disk, Outlet};
use guest_machine::Outs;
use record_machine::take_clock;
use record_parts::{Stop, Turn, spell, step_on};

impl Desk {
    /// Makes steps up to the first that has outputs, or to where none can follow; at most 65,536. What was put out is saved,
    /// and then released.
    pub fn run_on<D: Disk, O: Outlet>(
        &mut self,
        disk: &mut D,
        outlet: &mut O,
        until: u64,
    ) -> Result<Turn, Stop>
        requires own { HasDisk (kept_of self.old.store.journal) (D.may_leave disk.old) (D.seen disk.old) }
        requires ready { IsReady (kept_of self.old.store.journal) self.old.store.batch }
        requires goes { goes_on until self.old.machine.state ≡ true }
        requires clock { self.old.machine.state.devices.clock ≡ None }
        requires later { self.old.machine.state.count < until }
        requires most { until < 2 ^ 62 }
        ensures acts { BothTold (D.seen disk.old) (D.seen disk.new) (λ was now. (j : JournalData) → IsOwn (kept_of self.old.store.journal) (D.may_leave disk.old) was j
            → Leaves D.moment D.left_since disk.old disk.new (kept_of self.new.store.journal) (D.may_leave disk.new) now j
            (Spelled O.adding O.tearing (record { key = self.old.press.key; own = self.new.machine.state.devices.own }) until (record { journal = j; batch = self.old.store.batch.parts; machine = self.old.machine.state }) (aside_of self.old.kept self.old.machine) (aside_of self.new.kept self.new.machine) self.new.store.batch.parts self.new.machine.state (record { disk_before = D.faults disk.old; disk_after = D.faults disk.new; outlet_before = O.faults outlet.old; outlet_after = O.faults outlet.new }) (O.held outlet.old) (O.held outlet.new) result)) }
        ensures ready { OnOk result (IsReady (kept_of self.new.store.journal) self.new.store.batch) }
        ensures plain { IfOk result IsPlain }
        ensures clock { self.new.machine.state.devices.clock ≡ None }
        ensures key { self.new.press.key ≡ self.old.press.key }
        ensures same { IsSame (kept_of self.old.store.journal) (kept_of self.new.store.journal) }
        ensures disk_faults { DiskCounts (D.faults disk.old) (D.faults disk.new) result }
        ensures outlet_faults { OutletCounts (O.faults outlet.old) (O.faults outlet.new) result }
        ensures run { OnOutlet result ((kept_of self.new.store.journal).stop ≡ None) }
        ensures unsaved { WhereUnsaved result (StandsStill (kept_of self.new.store.journal) (D.may_leave disk.new) (D.seen disk.new)) }
        ensures loan { O.loan outlet.new ≡ O.loan outlet.old }
    {
        self.outs = Outs::none();
        let steps = spell(&mut self.machine, &mut self.outs, until);
        match self.finish(disk, outlet) {
            Ok(()) => Ok(Turn::Ran(steps)),
            Err(stop) => Err(stop),
        }
    }

    /// Makes the step that uses a pending clock value.
    pub fn use_clock<D: Disk, O: Outlet>(
        &mut self,
        disk: &mut D,
        outlet: &mut O,
    ) -> Result<Turn, Stop>
        requires own { HasDisk (kept_of self.old.store.journal) (D.may_leave disk.old) (D.seen disk.old) }
        requires ready { IsReady (kept_of self.old.store.journal) self.old.store.batch }
        requires asks { asks self.old.machine.state ≡ true }
        requires clock { is_some self.old.machine.state.devices.clock ≡ true }
        requires count { self.old.machine.state.count < 2 ^ 62 - 1 }
        ensures acts { BothTold (D.seen disk.old) (D.seen disk.new) (λ was now. (j : JournalData) → IsOwn (kept_of self.old.store.journal) (D.may_leave disk.old) was j
            → Leaves D.moment D.left_since disk.old disk.new (kept_of self.new.store.journal) (D.may_leave disk.new) now j
            (Acted O.adding O.tearing (record { key = self.old.press.key; own = self.new.machine.state.devices.own }) 0 StepOn (record { journal = j; batch = self.old.store.batch.parts; machine = self.old.machine.state }) (aside_of self.old.kept self.old.machine) (aside_of self.new.kept self.new.machine) self.new.store.batch.parts self.new.machine.state (record { disk_before = D.faults disk.old; disk_after = D.faults disk.new; outlet_before = O.faults outlet.old; outlet_after = O.faults outlet.new }) (O.held outlet.old) (O.held outlet.new) result)) }
        ensures ready { OnOk result (IsReady (kept_of self.new.store.journal) self.new.store.batch) }
        ensures plain { IfOk result IsPlain }
        ensures clock { self.new.machine.state.devices.clock ≡ None }
        ensures key { self.new.press.key ≡ self.old.press.key }
        ensures same { IsSame (kept_of self.old.store.journal) (kept_of self.new.store.journal) }
        ensures disk_faults { DiskCounts (D.faults disk.old) (D.faults disk.new) result }
        ensures outlet_faults { OutletCounts (O.faults outlet.old) (O.faults outlet.new) result }
        ensures run { OnOutlet result ((kept_of self.new.store.journal).stop ≡ None) }
        ensures unsaved { WhereUnsaved result (StandsStill (kept_of self.new.store.journal) (D.may_leave disk.new) (D.seen disk.new)) }
        ensures loan { O.loan outlet.new ≡ O.loan outlet.old }
    {
        self.outs = Outs::none();
        if !step_on(&mut self.machine, &mut self.outs) {
            unreachable!()
        }
        match self.finish(disk, outlet) {
            Ok(()) => Ok(Turn::Ran(1)),
            Err(stop) => Err(stop),
        }
    }

    /// Gives a machine that asks a clock value, and makes the step that uses it.
    pub fn answer_clock<D: Disk, O: Outlet>(
        &mut self,
        disk: &mut D,
        outlet: &mut O,
        value: u64,
    ) -> Result<Turn, Stop>
        requires own { HasDisk (kept_of self.old.store.journal) (D.may_leave disk.old) (D.seen disk.old) }
        requires ready { IsReady (kept_of self.old.store.journal) self.old.store.batch }
        requires asks { asks self.old.machine.state ≡ true }
        requires clock { self.old.machine.state.devices.clock ≡ None }
        requires count { self.old.machine.state.count < 2 ^ 62 - 1 }
        ensures acts { BothTold (D.seen disk.old) (D.seen disk.new) (λ was now. (j : JournalData) → IsOwn (kept_of self.old.store.journal) (D.may_leave disk.old) was j
            → Leaves D.moment D.left_since disk.old disk.new (kept_of self.new.store.journal) (D.may_leave disk.new) now j
            (Acted O.adding O.tearing (record { key = self.old.press.key; own = self.new.machine.state.devices.own }) 0 (AnswerClock value) (record { journal = j; batch = self.old.store.batch.parts; machine = self.old.machine.state }) (aside_of self.old.kept self.old.machine) (aside_of self.new.kept self.new.machine) self.new.store.batch.parts self.new.machine.state (record { disk_before = D.faults disk.old; disk_after = D.faults disk.new; outlet_before = O.faults outlet.old; outlet_after = O.faults outlet.new }) (O.held outlet.old) (O.held outlet.new) result)) }
        ensures ready { OnOk result (IsReady (kept_of self.new.store.journal) self.new.store.batch) }
        ensures plain { IfOk result IsPlain }
        ensures clock { self.new.machine.state.devices.clock ≡ None }
        ensures key { self.new.press.key ≡ self.old.press.key }
        ensures same { IsSame (kept_of self.old.store.journal) (kept_of self.new.store.journal) }
        ensures disk_faults { DiskCounts (D.faults disk.old) (D.faults disk.new) result }
        ensures outlet_faults { OutletCounts (O.faults outlet.old) (O.faults outlet.new) result }
        ensures run { OnOutlet result ((kept_of self.new.store.journal).stop ≡ None) }
        ensures unsaved { WhereUnsaved result (StandsStill (kept_of self.new.store.journal) (D.may_leave disk.new) (D.seen disk.new)) }
        ensures loan { O.loan outlet.new ≡ O.loan outlet.old }
    {
        has_numbers(&self.store);
        take_clock(&mut self.store.batch, &mut self.machine, value);
        self.outs = Outs::none();
        if !step_on(&mut self.machine, &mut self.outs) {
            unreachable!()
        }
        match self.finish(disk, outlet) {
            Ok(()) => Ok(Turn::Ran(1)),
            Err(stop) => Err(stop),
        }
    }
}
