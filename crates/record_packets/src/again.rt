//! Packets that are released again.

ghost use Rattle.std.specs.Prelude.{◌≡◌, ◌≤◌, ◌<◌, ◌^◌, ◌∷◌, [], List, ℕ, None, IfSome, length};
ghost use Rattle.avm_num.specs.Bytes.{IsBytes};
ghost use Rattle.avm_model.specs.LmsTypes.{height_of};
ghost use Rattle.avm_outside.specs.Outlet.{packet};
ghost use Rattle.journal_model.specs.Header.{CarriedData};
ghost use Rattle.journal_model.specs.Journal.{JournalData};
ghost use Rattle.jrnl_store.specs.Kept.{kept as kept_of, ticket_view};
ghost use Rattle.jrnl_store.specs.Own.{IsOwn};
ghost use Rattle.record_kept.specs.Again.{IsTicketOf};
ghost use Rattle.record_model.specs.Released.{packet_of};
ghost use Rattle.record_packets.specs.Again.{AgainAs, packet_as};
ghost use Rattle.record_parts.specs.Outs.{packet_by};
ghost use Rattle.record_store.specs.Saving.{StandsStill, WhereUnsaved};
ghost use Rattle.record_turn.specs.Leaves.{DiskCounts, OutletCounts};

use avm_num::are_bytes;
use avm_outside::{Disk, Outlet};
use jrnl_store::Ticket;
use record_parts::Stop;
use record_press::Press;
use record_store::Store;

/// The most bytes of the content of a SEND or RECV entry.
const LONGEST_CONTENT: usize = 10_429;

/// Which packet an entry makes: a SEND entry DATA, a RECV entry ACK.
#[derive(Clone, Copy)]
pub enum Kind {
    Data,
    Ack,
}

/// A packet that is to be released again: who sends it, to whom, the ticket of its entry, and which packet that makes.
#[derive(Clone, Copy)]
pub struct Parcel {
    pub own: u32,
    pub peer: u32,
    pub ticket: Ticket,
    pub kind: Kind,
}

/// Makes the packet of a content, signed at the leaf of its ticket.
fn make(press: &mut Press, parcel: Parcel, content: &[u8])
    requires leaf { (ticket_view parcel.ticket).leaf < 2 ^ height_of press.old.key.lms }
    requires content { length content.now ≤ 10429 }
    ensures value { press.new ≡ record press.old { bytes = packet_as parcel.kind (packet_by (record { key = press.old.key; own = parcel.own }) (ticket_view parcel.ticket) content.now) } }
    ensures short { length press.new.bytes ≤ 20000 }
{
    match parcel.kind {
        Kind::Data => press.make_data(parcel.own, content, &parcel.ticket),
        Kind::Ack => press.make_ack(parcel.own, content, &parcel.ticket),
    }
}

/// Releases the packet of a signed entry again, with the bytes that it had: its content is read back from the journal.
pub fn release_again<D: Disk, O: Outlet>(
    store: &mut Store,
    disk: &mut D,
    outlet: &mut O,
    press: &mut Press,
    parcel: Parcel,
) -> Result<(), Stop>
    requires leaf { (ticket_view parcel.ticket).leaf < 2 ^ height_of press.old.key.lms }
    ensures released { IfSome (D.seen disk.old) (λ was. (j : JournalData) (e : CarriedData) → IsOwn (kept_of store.old.journal) (D.may_leave disk.old) was j → (kept_of store.old.journal).stop ≡ None → IsTicketOf j (ticket_view parcel.ticket) e
        → (IsBytes e.frame.content → length e.frame.content ≤ 10429)
        → AgainAs O.adding O.tearing (packet parcel.peer (packet_as parcel.kind (packet_of (record { key = press.old.key; own = parcel.own }) e)) ∷ []) (record { disk_before = D.faults disk.old; disk_after = D.faults disk.new; outlet_before = O.faults outlet.old; outlet_after = O.faults outlet.new }) (O.held outlet.old) (O.held outlet.new) result) }
    ensures journal { kept_of store.new.journal ≡ kept_of store.old.journal }
    ensures batch { store.new.batch ≡ store.old.batch }
    ensures key { press.new.key ≡ press.old.key }
    ensures same { D.seen disk.new ≡ D.seen disk.old }
    ensures crash { (c : List ℕ) → D.may_leave disk.new c → D.may_leave disk.old c }
    ensures later { D.moment disk.old ≤ D.moment disk.new }
    ensures moments { (t : ℕ) (c : List ℕ) → t ≤ D.moment disk.old → D.left_since disk.new t c → D.left_since disk.old t c }
    ensures disk_faults { DiskCounts (D.faults disk.old) (D.faults disk.new) result }
    ensures outlet_faults { OutletCounts (O.faults outlet.old) (O.faults outlet.new) result }
    ensures loan { O.loan outlet.new ≡ O.loan outlet.old }
    ensures unsaved { WhereUnsaved result (StandsStill (kept_of store.new.journal) (D.may_leave disk.new) (D.seen disk.new)) }
{
    let sought = match store.journal.seek_frame(disk, &parcel.ticket) {
        Ok(sought) => sought,
        Err(_) => return Err(Stop::DiskFault),
    };
    let frame = store.journal.frame(sought);
    let content = frame.content;
    are_bytes(content);
    let len = content.len().min(LONGEST_CONTENT);
    make(press, parcel, &content[..len]);
    match outlet.packet(parcel.peer, press.bytes()) {
        Ok(()) => Ok(()),
        Err(_) => Err(Stop::OutletFault),
    }
}
