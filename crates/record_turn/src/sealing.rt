//! A seal: the last position of the journal is signed.

ghost use Rattle.std.specs.Prelude.{◌≡◌, ◌⊎◌, ◌<◌, ◌^◌, true, false, None, Some, IfOk, IfSome, OnOk, OnErr, MatchOption};
ghost use Rattle.avm_model.specs.LmsTypes.{height_of};
ghost use Rattle.avm_outside.specs.Outlet.{auth};
ghost use Rattle.avm_outside.specs.Outside.{BothTold, Counts};
ghost use Rattle.journal_model.specs.Header.{most_leaves};
ghost use Rattle.journal_model.specs.Journal.{JournalData};
ghost use Rattle.jrnl_store.specs.Kept.{kept as kept_of, ticket_view};
ghost use Rattle.jrnl_store.specs.Made.{sealed_in};
ghost use Rattle.jrnl_store.specs.Own.{IsOwn};
ghost use Rattle.record_model.specs.Recording.{is_none};
ghost use Rattle.record_parts.specs.Outs.{auth_by};
ghost use Rattle.record_store.specs.Open.{IsSame};
ghost use Rattle.record_store.specs.Saving.{StandsStill, WhereUnsaved};
ghost use Rattle.record_turn.specs.Desk.{HasDisk, IsReady, rows_of};
ghost use Rattle.record_turn.specs.Leaves.{DiskCounts, IsPlainSeal, Leaves, OnOutlet, OutletCounts, Seals};

use crate::desk::Desk;
use avm_outside::{Disk, Failed, Outlet};
use jrnl_store::Ticket;
use record_parts::{Sealed, Stop};
use record_press::Press;
use record_store::Store;

/// The ticket of the last seal, where nothing is open behind it.
fn last_seal(store: &Store) -> Option<Ticket>
    ensures value { MatchOption result ((is_none store.now.batch.parts ≡ false) ⊎ (sealed_in (kept_of store.now.journal).standing ≡ None)) (λ t. (is_none store.now.batch.parts ≡ true) × (sealed_in (kept_of store.now.journal).standing ≡ Some (ticket_view t))) }
    ensures leaf { IfSome result (λ t. (ticket_view t).leaf < most_leaves (kept_of store.now.journal).key) }
{
    if !store.batch.is_empty() {
        return None;
    }
    store.journal.sealed()
}

/// Releases the authenticator of a ticket.
fn release_auth<O: Outlet>(outlet: &mut O, press: &mut Press, ticket: &Ticket) -> Result<(), Failed>
    requires leaf { (ticket_view ticket.now).leaf < 2 ^ height_of press.old.key.lms }
    ensures released { OnOk result (O.held outlet.new ≡ O.adding (auth (auth_by (record { key = press.old.key; own = 0 }) (ticket_view ticket.now))) (O.held outlet.old)) }
    ensures failed { OnErr result (O.tearing (auth (auth_by (record { key = press.old.key; own = 0 }) (ticket_view ticket.now))) (O.held outlet.old) (O.held outlet.new)) }
    ensures loan { O.loan outlet.new ≡ O.loan outlet.old }
    ensures faults { Counts (O.faults outlet.old) (O.faults outlet.new) result }
    ensures key { press.new.key ≡ press.old.key }
{
    press.make_auth(ticket);
    outlet.authenticator(press.bytes())
}

impl Desk {
    /// Saves the batch with a seal, and then releases the last entry's authenticator. Where nothing is open and the last item
    /// is a seal, its authenticator is released again.
    pub fn seal<D: Disk, O: Outlet>(&mut self, disk: &mut D, outlet: &mut O) -> Result<Sealed, Stop>
        requires own { HasDisk (kept_of self.old.store.journal) (D.may_leave disk.old) (D.seen disk.old) }
        requires ready { IsReady (kept_of self.old.store.journal) self.old.store.batch }
        ensures seals { BothTold (D.seen disk.old) (D.seen disk.new) (λ was now. (j : JournalData) → IsOwn (kept_of self.old.store.journal) (D.may_leave disk.old) was j
            → Leaves D.moment D.left_since disk.old disk.new (kept_of self.new.store.journal) (D.may_leave disk.new) now j
            (Seals O.adding O.tearing (record { key = self.old.press.key; own = self.old.machine.state.devices.own }) (record { journal = j; batch = self.old.store.batch.parts; machine = self.old.machine.state }) (rows_of self.old.kept) self.new.store.batch.parts (record { disk_before = D.faults disk.old; disk_after = D.faults disk.new; outlet_before = O.faults outlet.old; outlet_after = O.faults outlet.new }) (O.held outlet.old) (O.held outlet.new) result)) }
        ensures plain { IfOk result IsPlainSeal }
        ensures ready { OnOk result (IsReady (kept_of self.new.store.journal) self.new.store.batch) }
        ensures machine { self.new.machine ≡ self.old.machine }
        ensures kept { rows_of self.new.kept ≡ rows_of self.old.kept }
        ensures key { self.new.press.key ≡ self.old.press.key }
        ensures same { IsSame (kept_of self.old.store.journal) (kept_of self.new.store.journal) }
        ensures disk_faults { DiskCounts (D.faults disk.old) (D.faults disk.new) result }
        ensures outlet_faults { OutletCounts (O.faults outlet.old) (O.faults outlet.new) result }
        ensures run { OnOutlet result ((kept_of self.new.store.journal).stop ≡ None) }
        ensures unsaved { WhereUnsaved result (StandsStill (kept_of self.new.store.journal) (D.may_leave disk.new) (D.seen disk.new)) }
        ensures loan { O.loan outlet.new ≡ O.loan outlet.old }
    {
        match last_seal(&self.store) {
            Some(ticket) => {
                return match release_auth(outlet, &mut self.press, &ticket) {
                    Ok(()) => Ok(Sealed::Again),
                    Err(_) => Err(Stop::OutletFault),
                };
            }
            None => {}
        }
        self.store.batch.add_seal();
        let ticket = match self.store.save(disk) {
            Ok(Some(ticket)) => ticket,
            Ok(None) => unreachable!(),
            Err(stop) => return Err(stop),
        };
        match release_auth(outlet, &mut self.press, &ticket) {
            Ok(()) => Ok(Sealed::Done),
            Err(_) => Err(Stop::OutletFault),
        }
    }
}
