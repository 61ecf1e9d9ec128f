//! Packets that come in.

ghost use Rattle.std.specs.Prelude.{◌≡◌, ◌≤◌, None, OnOk, length, IfOk};
ghost use Rattle.avm_model.specs.Offer.{packet_offer};
ghost use Rattle.avm_outside.specs.Outside.{BothTold};
ghost use Rattle.journal_model.specs.Journal.{JournalData};
ghost use Rattle.jrnl_store.specs.Kept.{kept as kept_of};
ghost use Rattle.jrnl_store.specs.Own.{IsOwn};
ghost use Rattle.record_kept.specs.Tickets.{AreKeptOf};
ghost use Rattle.record_model.specs.Recording.{TakeIn};
ghost use Rattle.record_store.specs.Open.{IsSame};
ghost use Rattle.record_store.specs.Saving.{StandsStill, WhereUnsaved};
ghost use Rattle.record_turn.specs.Desk.{HasDisk, IsReady, rows_of};
ghost use Rattle.record_turn.specs.Keeping.{aside_of};
ghost use Rattle.record_turn.specs.Leaves.{Acted, DiskCounts, IsPlain, Leaves, OnOutlet, OutletCounts};

use crate::answering::acknowledge;
use crate::packets::drop_packet;
use avm_outside::{Disk, Outlet};
use record_parts::{Stop, Turn};
use record_turn::{Desk, has_numbers};
use replayer::Offered;

/// Takes a packet, or drops it where the machine refuses it. A message that is taken is saved, and then acknowledged; a message
/// that was taken before is acknowledged again.
pub fn take_packet<D: Disk, O: Outlet>(
    desk: &mut Desk,
    disk: &mut D,
    outlet: &mut O,
    bytes: &[u8],
) -> Result<Turn, Stop>
    requires own { HasDisk (kept_of desk.old.store.journal) (D.may_leave disk.old) (D.seen disk.old) }
    requires ready { IsReady (kept_of desk.old.store.journal) desk.old.store.batch }
    requires few { length bytes.now ≤ 20000 }
    ensures acts { BothTold (D.seen disk.old) (D.seen disk.new) (λ was now. (j : JournalData) → IsOwn (kept_of desk.old.store.journal) (D.may_leave disk.old) was j → AreKeptOf (rows_of desk.old.kept) j
        → Leaves D.moment D.left_since disk.old disk.new (kept_of desk.new.store.journal) (D.may_leave disk.new) now j
        (Acted O.adding O.tearing (record { key = desk.old.press.key; own = desk.new.machine.state.devices.own }) 0 (TakeIn (packet_offer bytes.now)) (record { journal = j; batch = desk.old.store.batch.parts; machine = desk.old.machine.state }) (aside_of desk.old.kept desk.old.machine) (aside_of desk.new.kept desk.new.machine) desk.new.store.batch.parts desk.new.machine.state (record { disk_before = D.faults disk.old; disk_after = D.faults disk.new; outlet_before = O.faults outlet.old; outlet_after = O.faults outlet.new }) (O.held outlet.old) (O.held outlet.new) result)) }
    ensures plain { IfOk result IsPlain }
    ensures ready { OnOk result (IsReady (kept_of desk.new.store.journal) desk.new.store.batch) }
    ensures clock { desk.new.machine.state.devices.clock ≡ desk.old.machine.state.devices.clock }
    ensures key { desk.new.press.key ≡ desk.old.press.key }
    ensures same { IsSame (kept_of desk.old.store.journal) (kept_of desk.new.store.journal) }
    ensures disk_faults { DiskCounts (D.faults disk.old) (D.faults disk.new) result }
    ensures outlet_faults { OutletCounts (O.faults outlet.old) (O.faults outlet.new) result }
    ensures run { OnOutlet result ((kept_of desk.new.store.journal).stop ≡ None) }
    ensures unsaved { WhereUnsaved result (StandsStill (kept_of desk.new.store.journal) (D.may_leave disk.new) (D.seen disk.new)) }
    ensures loan { O.loan outlet.new ≡ O.loan outlet.old }
{
    has_numbers(&desk.store);
    let count = desk.machine.count();
    match record_machine::take_packet(&mut desk.store.batch, &mut desk.machine, bytes) {
        Ok(Offered::Recv) => acknowledge(desk, disk, outlet, count, bytes),
        Ok(Offered::Acked) => match desk.settle(disk) {
            Ok(()) => Ok(Turn::Took),
            Err(stop) => Err(stop),
        },
        Err(why) => drop_packet(desk, disk, outlet, bytes, why),
    }
}
