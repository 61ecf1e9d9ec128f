//! Packets that are dropped, and packets that are sent again.

ghost use Rattle.std.specs.Prelude.{◌≡◌, Some, None, IfOk};
ghost use Rattle.avm_model.specs.Device.{row_of};
ghost use Rattle.avm_model.specs.Offer.{packet_offer, refuse_packet};
ghost use Rattle.avm_outside.specs.Outside.{BothTold};
ghost use Rattle.journal_model.specs.Journal.{JournalData};
ghost use Rattle.jrnl_store.specs.Kept.{kept as kept_of};
ghost use Rattle.jrnl_store.specs.Own.{IsOwn};
ghost use Rattle.record_kept.specs.Tickets.{AreKeptOf};
ghost use Rattle.record_model.specs.Recording.{SendAgain, TakeIn};
ghost use Rattle.record_model.specs.Released.{repeated_from, resend_refusal};
ghost use Rattle.record_store.specs.Open.{IsSame};
ghost use Rattle.record_store.specs.Saving.{StandsStill, WhereUnsaved};
ghost use Rattle.record_turn.specs.Desk.{HasDisk, IsReady, rows_of};
ghost use Rattle.record_turn.specs.Keeping.{aside_of};
ghost use Rattle.record_turn.specs.Leaves.{Acted, DiskCounts, IsPlain, Leaves, OnOutlet, OutletCounts};

use crate::again::{Kind, Parcel, release_again};
use avm_outside::{Disk, Outlet};
use guest_machine::{Machine, NotTaken};
use record_kept::sender;
use record_parts::{Stop, Turn};
use record_turn::Desk;

/// The sender of a packet that repeats a message which was taken.
#[tactic(auto, using(record_kept::proofs::Drops::not_repeated))]
fn repeater(bytes: &[u8], why: NotTaken) -> Option<u32>
    ensures { result ≡ repeated_from why (packet_offer bytes.now) }
{
    match why {
        NotTaken::Repeated => {}
        _ => return None,
    }
    match bytes.first() {
        Some(1) => Some(sender(bytes)),
        _ => None,
    }
}

/// The machine's own id.
fn own_id(machine: &Machine) -> u32
    ensures { result ≡ machine.now.state.devices.own }
{
    machine.devices().own() as u32
}

/// Why nothing is sent again to a peer.
fn why_unsent(machine: &Machine, peer: u32) -> NotTaken
    ensures { resend_refusal (row_of machine.now.state.devices.peers peer) None ≡ Some result }
{
    match machine.devices().row(peer) {
        None => NotTaken::UnknownPeer,
        Some(_) => NotTaken::NotOutstanding,
    }
}

/// Releases the packet to a peer that isn't acknowledged again, or drops the request.
pub fn send_again<D: Disk, O: Outlet>(
    desk: &mut Desk,
    disk: &mut D,
    outlet: &mut O,
    peer: u32,
) -> Result<Turn, Stop>
    requires own { HasDisk (kept_of desk.old.store.journal) (D.may_leave disk.old) (D.seen disk.old) }
    requires ready { IsReady (kept_of desk.old.store.journal) desk.old.store.batch }
    ensures acts { BothTold (D.seen disk.old) (D.seen disk.new) (λ was now. (j : JournalData) → IsOwn (kept_of desk.old.store.journal) (D.may_leave disk.old) was j → AreKeptOf (rows_of desk.old.kept) j
        → Leaves D.moment D.left_since disk.old disk.new (kept_of desk.new.store.journal) (D.may_leave disk.new) now j
        (Acted O.adding O.tearing (record { key = desk.old.press.key; own = desk.new.machine.state.devices.own }) 0 (SendAgain peer) (record { journal = j; batch = desk.old.store.batch.parts; machine = desk.old.machine.state }) (aside_of desk.old.kept desk.old.machine) (aside_of desk.new.kept desk.new.machine) desk.new.store.batch.parts desk.new.machine.state (record { disk_before = D.faults disk.old; disk_after = D.faults disk.new; outlet_before = O.faults outlet.old; outlet_after = O.faults outlet.new }) (O.held outlet.old) (O.held outlet.new) result)) }
    ensures plain { IfOk result IsPlain }
    ensures ready { IsReady (kept_of desk.new.store.journal) desk.new.store.batch }
    ensures machine { desk.new.machine ≡ desk.old.machine }
    ensures key { desk.new.press.key ≡ desk.old.press.key }
    ensures same { IsSame (kept_of desk.old.store.journal) (kept_of desk.new.store.journal) }
    ensures disk_faults { DiskCounts (D.faults disk.old) (D.faults disk.new) result }
    ensures outlet_faults { OutletCounts (O.faults outlet.old) (O.faults outlet.new) result }
    ensures run { OnOutlet result ((kept_of desk.new.store.journal).stop ≡ None) }
    ensures unsaved { WhereUnsaved result (StandsStill (kept_of desk.new.store.journal) (D.may_leave disk.new) (D.seen disk.new)) }
    ensures loan { O.loan outlet.new ≡ O.loan outlet.old }
{
    let Some(ticket) = desk.kept.outstanding(&desk.machine, peer) else {
        return Ok(Turn::Dropped(why_unsent(&desk.machine, peer)));
    };
    let parcel = Parcel {
        own: own_id(&desk.machine),
        peer,
        ticket,
        kind: Kind::Data,
    };
    match release_again(&mut desk.store, disk, outlet, &mut desk.press, parcel) {
        Ok(()) => Ok(Turn::Resent),
        Err(stop) => Err(stop),
    }
}

/// Drops a packet that the machine refuses. Where it repeats a message that was taken, the last acknowledgement to its
/// sender is released again.
pub(crate) fn drop_packet<D: Disk, O: Outlet>(
    desk: &mut Desk,
    disk: &mut D,
    outlet: &mut O,
    bytes: &[u8],
    why: NotTaken,
) -> Result<Turn, Stop>
    requires own { HasDisk (kept_of desk.old.store.journal) (D.may_leave disk.old) (D.seen disk.old) }
    requires ready { IsReady (kept_of desk.old.store.journal) desk.old.store.batch }
    requires refused { refuse_packet desk.old.machine.state (packet_offer bytes.now) ≡ Some why }
    ensures acts { BothTold (D.seen disk.old) (D.seen disk.new) (λ was now. (j : JournalData) → IsOwn (kept_of desk.old.store.journal) (D.may_leave disk.old) was j → AreKeptOf (rows_of desk.old.kept) j
        → Leaves D.moment D.left_since disk.old disk.new (kept_of desk.new.store.journal) (D.may_leave disk.new) now j
        (Acted O.adding O.tearing (record { key = desk.old.press.key; own = desk.new.machine.state.devices.own }) 0 (TakeIn (packet_offer bytes.now)) (record { journal = j; batch = desk.old.store.batch.parts; machine = desk.old.machine.state }) (aside_of desk.old.kept desk.old.machine) (aside_of desk.new.kept desk.new.machine) desk.new.store.batch.parts desk.new.machine.state (record { disk_before = D.faults disk.old; disk_after = D.faults disk.new; outlet_before = O.faults outlet.old; outlet_after = O.faults outlet.new }) (O.held outlet.old) (O.held outlet.new) result)) }
    ensures plain { IfOk result IsPlain }
    ensures ready { IsReady (kept_of desk.new.store.journal) desk.new.store.batch }
    ensures machine { desk.new.machine ≡ desk.old.machine }
    ensures key { desk.new.press.key ≡ desk.old.press.key }
    ensures same { IsSame (kept_of desk.old.store.journal) (kept_of desk.new.store.journal) }
    ensures disk_faults { DiskCounts (D.faults disk.old) (D.faults disk.new) result }
    ensures outlet_faults { OutletCounts (O.faults outlet.old) (O.faults outlet.new) result }
    ensures run { OnOutlet result ((kept_of desk.new.store.journal).stop ≡ None) }
    ensures unsaved { WhereUnsaved result (StandsStill (kept_of desk.new.store.journal) (D.may_leave disk.new) (D.seen disk.new)) }
    ensures loan { O.loan outlet.new ≡ O.loan outlet.old }
{
    desk.machine.bounds();
    let Some(peer) = repeater(bytes, why) else {
        return Ok(Turn::Dropped(why));
    };
    let Some(ticket) = desk.kept.recv_from(peer) else {
        return Ok(Turn::Dropped(why));
    };
    let parcel = Parcel {
        own: own_id(&desk.machine),
        peer,
        ticket,
        kind: Kind::Ack,
    };
    match release_again(&mut desk.store, disk, outlet, &mut desk.press, parcel) {
        Ok(()) => Ok(Turn::Dropped(why)),
        Err(stop) => Err(stop),
    }
}
