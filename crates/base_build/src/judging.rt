//! Whether a store can go on from an entry.

ghost use Rattle.std.specs.Prelude.{◌≡◌, None, IfErr, IfOk, true};
ghost use Rattle.avm_model.specs.HeadReading.{head_of};
ghost use Rattle.jrnl_store.specs.Kept.{kept};
ghost use Rattle.keep_judge.specs.Good.{pages_fit};
ghost use Rattle.rebut_pass.specs.Reads.{OfJournal, OnlyReads};
ghost use Rattle.base_build.specs.Counts.{DiskCounts};
ghost use Rattle.base_build.specs.Judging.{IsOfReading, Judges};

use crate::fault::of_read;
use crate::point::{Point, take_point};
use avm_num::Room;
use avm_outside::Disk;
use base_survey::read_place;
use jrnl_store::Journal;
use std::alloc::Global;
use store_move::RetainFault;
use stretch_replay::stretch;

/// Judges whether a journal whose header has this head can go on from an entry: the first that doesn't replay up to it is
/// `Unreplayed`; an entry that is no SNAP, or has a number or a count of 2^61 or more, is `Range`.
pub fn judge<D: Disk>(
    alloc: Global,
    journal: &mut Journal,
    disk: &mut D,
    head: Room,
    at: u64,
) -> Result<Point, RetainFault>
    requires fits { pages_fit (kept journal.old).bounds.pages (head_of head.bytes) ≡ true }
    requires room { head.capacity ≡ 16384 }
    ensures judges { OfJournal (D.seen disk.old) (kept journal.old) (λ j. head.bytes ≡ j.header.head → Judges at j result) }
    ensures clock { IfOk result (λ p. p.machine.state.devices.clock ≡ None) }
    ensures cause { IfErr result IsOfReading }
    ensures kept { kept journal.new ≡ kept journal.old }
    ensures reads { OnlyReads D.seen D.may_leave D.moment D.left_since disk.old disk.new }
    ensures disk { DiskCounts (D.faults disk.old) (D.faults disk.new) result }
{
    let read = match stretch(alloc, journal, disk, head, at) {
        Ok(read) => read,
        Err(fault) => return Err(of_read(fault)),
    };
    let place = match read_place(alloc, journal, disk, at) {
        Ok(place) => place,
        Err(fault) => return Err(of_read(fault)),
    };
    take_point(read, place, at)
}
