//! The bytes of a base.

ghost use Rattle.std.specs.Prelude.{◌≡◌, ◌≤◌, None, IfErr, IfOk, length};
ghost use Rattle.avm_num.specs.Room.{left};
ghost use Rattle.avm_model.specs.Head.{head_bytes};
ghost use Rattle.avm_model.specs.HeadState.{data_of};
ghost use Rattle.jrnl_store.specs.Kept.{kept};
ghost use Rattle.rebut_model.specs.Texts.{OfHead};
ghost use Rattle.rebut_pass.specs.Reads.{OnlyReads, ReadCounts};
ghost use Rattle.base_build.specs.Counts.{DiskCounts};
ghost use Rattle.base_build.specs.Judging.{IsOfReading, IsPoint};
ghost use Rattle.base_build.specs.Building.{Builds, Gated, HasGate, IsBaseAt, OfStore, is_gated};

use crate::fault::of_read;
use crate::judging::judge;
use crate::point::{Point, is_other};
use avm_num::{NoMemory, Room};
use avm_outside::Disk;
use base_carried::read_carried;
use base_place::read_start;
use base_records::read_records;
use base_write::{Base, BaseHeader, write_base};
use guest_machine::Machine;
use jrnl_store::Journal;
use keep_judge::fits;
use open_replay::header_head;
use rebut_pass::ReadFault;
use snap_state::{head_len, put_head};
use std::alloc::Global;
use store_move::RetainFault;

/// The head of a machine.
#[tactic(auto, unfolding(avm_num::specs::Room::left))]
fn head_of_machine(alloc: Global, machine: &Machine) -> Result<Room, NoMemory>
    requires clock { machine.now.state.devices.clock ≡ None }
    ensures head { IfOk result (λ r. r.bytes ≡ head_bytes (data_of machine.now.state)) }
    ensures whole { IfOk result (λ _. OfHead machine.now.state) }
    ensures short { IfOk result (λ r. length r.bytes ≤ 11783) }
{
    machine.bounds();
    let mut head = Room::new(alloc, head_len(machine))?;
    put_head(&mut head, machine);
    Ok(head)
}

/// Reads what a base holds besides its state, and writes it. `head` is how many bytes the head of the store's header has.
fn build_at<D: Disk>(
    alloc: Global,
    journal: &mut Journal,
    disk: &mut D,
    point: &Point,
    at: u64,
    head: usize,
) -> Result<Base, ReadFault>
    requires head { head ≤ 16384 }
    requires clock { point.now.machine.state.devices.clock ≡ None }
    ensures base { IfOk result (λ b. OfStore (D.seen disk.old) (kept journal.old) (λ j. head ≡ length j.header.head → IsPoint j at point.now → IsBaseAt j at point.now.machine.state b)) }
    ensures kept { kept journal.new ≡ kept journal.old }
    ensures reads { OnlyReads D.seen D.may_leave D.moment D.left_since disk.old disk.new }
    ensures faults { ReadCounts (D.faults disk.old) (D.faults disk.new) result }
{
    let own = match head_of_machine(alloc, &point.machine) {
        Ok(own) => own,
        Err(_) => return Err(ReadFault::NoMemory),
    };
    let peers = point.machine.devices().peers();
    let carried = match read_carried(alloc, journal, disk, at, peers) {
        Ok(carried) => carried,
        Err(fault) => return Err(fault),
    };
    let start = match read_start(alloc, journal, disk, head) {
        Ok(start) => start,
        Err(fault) => return Err(fault),
    };
    let records = match read_records(alloc, disk, start, at) {
        Ok(records) => records,
        Err(fault) => return Err(fault),
    };
    let key = journal.key();
    let header = BaseHeader {
        key: &key,
        first: at,
        before: point.place.before,
        leaves: point.place.leaves,
        head: own.bytes(),
        pages: point.machine.ram().bytes(),
        count: carried.count,
        carried: &carried.bytes,
    };
    match write_base(alloc, &header, &records.bytes) {
        Ok(base) => Ok(base),
        Err(_) => Err(ReadFault::NoMemory),
    }
}

/// Whether an open gate stands behind a base's header.
fn has_gate(base: &Base) -> bool
    ensures { result ≡ is_gated base.now.header base.now.bytes.items }
{
    base.header >= 1 && base.header < base.bytes.len() && base.bytes[base.header] == 1
}

/// A base that has a record. A disk that tells nothing may give none.
fn gated(base: Base) -> Result<Base, RetainFault>
    ensures { Gated base result }
{
    if !has_gate(&base) {
        return Err(RetainFault::NoStore);
    }
    Ok(base)
}

/// Reads a store and builds the base that goes on from an entry, or tells why there is none. The refusals, in this order: `NoStore`
/// where the header has no head; `Range` where the mark names another entry; `Unreplayed` with the first entry up to this one that
/// doesn't replay; `Range` where it is no SNAP, or its number or its count is 2^61 or more. The disk is only read.
pub fn build<D: Disk>(
    alloc: Global,
    journal: &mut Journal,
    disk: &mut D,
    at: u64,
) -> Result<Base, RetainFault>
    ensures built { OfStore (D.seen disk.old) (kept journal.old) (λ j. Builds at j result) }
    ensures gate { IfOk result HasGate }
    ensures cause { IfErr result IsOfReading }
    ensures kept { kept journal.new ≡ kept journal.old }
    ensures reads { OnlyReads D.seen D.may_leave D.moment D.left_since disk.old disk.new }
    ensures disk { DiskCounts (D.faults disk.old) (D.faults disk.new) result }
{
    let head = match header_head(alloc, journal, disk) {
        Ok(head) => head,
        Err(fault) => return Err(of_read(fault)),
    };
    if !fits(head.bytes(), journal.page_count()) {
        return Err(RetainFault::NoStore);
    }
    if is_other(journal.retired(), at) {
        return Err(RetainFault::Range);
    }
    let size = head.bytes().len();
    let point = match judge(alloc, journal, disk, head, at) {
        Ok(point) => point,
        Err(fault) => return Err(fault),
    };
    match build_at(alloc, journal, disk, &point, at, size) {
        Ok(base) => gated(base),
        Err(fault) => Err(of_read(fault)),
    }
}
