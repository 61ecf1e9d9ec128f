//! A message that was taken is saved, and only then acknowledged.

ghost use Rattle.std.specs.Prelude.{◌≡◌, None, Some, OnOk, IfOk};
ghost use Rattle.avm_model.specs.Machine.{State};
ghost use Rattle.avm_model.specs.Offer.{OfferData};
ghost use Rattle.avm_outside.specs.Outside.{BothTold};
ghost use Rattle.journal_model.specs.Journal.{JournalData};
ghost use Rattle.jrnl_store.specs.Kept.{kept as kept_of};
ghost use Rattle.jrnl_store.specs.Own.{IsOwn};
ghost use Rattle.record_batch.specs.Batch.{BatchData};
ghost use Rattle.record_model.specs.Recording.{TakeIn};
ghost use Rattle.record_packets.specs.Coming.{Came};
ghost use Rattle.record_store.specs.Open.{IsSame};
ghost use Rattle.record_store.specs.Saving.{StandsStill, WhereUnsaved};
ghost use Rattle.record_turn.specs.Desk.{HasDisk, IsReady};
ghost use Rattle.record_turn.specs.Keeping.{aside_of};
ghost use Rattle.record_turn.specs.Leaves.{Acted, DiskCounts, IsPlain, Leaves, OnOutlet, OutletCounts};

use avm_outside::{Disk, Outlet};
use record_kept::sender;
use record_parts::{Stop, Turn};
use record_turn::Desk;

/// Saves the batch whose last entry is a message that came at a count, keeps its ticket, and then releases the
/// acknowledgement to its sender.
pub fn acknowledge<D: Disk, O: Outlet>(
    desk: &mut Desk,
    disk: &mut D,
    outlet: &mut O,
    count: u64,
    bytes: &[u8],
) -> Result<Turn, Stop>
    requires own { HasDisk (kept_of desk.old.store.journal) (D.may_leave disk.old) (D.seen disk.old) }
    requires came { (s : State) × (b : BatchData) × (s.count ≡ count) × Came (kept_of desk.old.store.journal) s desk.old.machine.state b desk.old.store.batch bytes.now }
    ensures acts { (s : State) (b : BatchData) → s.count ≡ count → Came (kept_of desk.old.store.journal) s desk.old.machine.state b desk.old.store.batch bytes.now
        → BothTold (D.seen disk.old) (D.seen disk.new) (λ was now. (j : JournalData) → IsOwn (kept_of desk.old.store.journal) (D.may_leave disk.old) was j
        → Leaves D.moment D.left_since disk.old disk.new (kept_of desk.new.store.journal) (D.may_leave disk.new) now j
        (Acted O.adding O.tearing (record { key = desk.old.press.key; own = desk.new.machine.state.devices.own }) 0 (TakeIn (Some (OfferData bytes.now))) (record { journal = j; batch = b.parts; machine = s }) (aside_of desk.old.kept desk.old.machine) (aside_of desk.new.kept desk.new.machine) desk.new.store.batch.parts desk.new.machine.state (record { disk_before = D.faults disk.old; disk_after = D.faults disk.new; outlet_before = O.faults outlet.old; outlet_after = O.faults outlet.new }) (O.held outlet.old) (O.held outlet.new) result)) }
    ensures plain { IfOk result IsPlain }
    ensures ready { OnOk result (IsReady (kept_of desk.new.store.journal) desk.new.store.batch) }
    ensures machine { desk.new.machine ≡ desk.old.machine }
    ensures key { desk.new.press.key ≡ desk.old.press.key }
    ensures same { IsSame (kept_of desk.old.store.journal) (kept_of desk.new.store.journal) }
    ensures disk_faults { DiskCounts (D.faults disk.old) (D.faults disk.new) result }
    ensures outlet_faults { OutletCounts (O.faults outlet.old) (O.faults outlet.new) result }
    ensures run { OnOutlet result ((kept_of desk.new.store.journal).stop ≡ None) }
    ensures unsaved { WhereUnsaved result (StandsStill (kept_of desk.new.store.journal) (D.may_leave disk.new) (D.seen disk.new)) }
    ensures loan { O.loan outlet.new ≡ O.loan outlet.old }
{
    let ticket = match desk.store.save(disk) {
        Ok(Some(ticket)) => ticket,
        Ok(None) => unreachable!(),
        Err(stop) => return Err(stop),
    };
    let peer = sender(bytes);
    desk.kept.add_recv(peer, ticket);
    desk.press.answer(&desk.machine, count, bytes, &ticket);
    match outlet.packet(peer, desk.press.bytes()) {
        Ok(()) => Ok(Turn::Took),
        Err(_) => Err(Stop::OutletFault),
    }
}
