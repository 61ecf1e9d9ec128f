//! A store is retained as a base on a spare.

ghost use Rattle.std.specs.Prelude.{◌≡◌, None, List, ℕ, IfErr, IfOk, IfSome, OnOk};
ghost use Rattle.avm_outside.specs.Outside.{BothTold};
ghost use Rattle.avm_outside.specs.Moments.{LeavesOnly};
ghost use Rattle.base_build.specs.Counts.{DiskCounts};
ghost use Rattle.base_model.specs.Spare.{IsFree, IsSafe};
ghost use Rattle.jrnl_store.specs.Kept.{kept};
ghost use Rattle.rebut_pass.specs.Reads.{OnlyReads};
ghost use Rattle.spare_disk.specs.Activating.{Each};
ghost use Rattle.store_move.specs.Moving.{MoveCounts};
ghost use Rattle.store_retain.specs.Retaining.{IsOfOpening, IsSpareImage, IsStoreImage, IsUnmarked, JournalAnswers, Opens, RetainAnswers, Retires, RetainsTogether, WhereLeft};

use crate::fault::of_store;
use avm_outside::Disk;
use base_build::build;
use jrnl_store::Journal;
use std::alloc::Global;
use store_move::{RetainFault, retain_base};

/// Opens the journal of a disk.
fn open<D: Disk>(alloc: Global, disk: &mut D) -> Result<Journal, RetainFault>
    ensures answers { IfSome (D.seen disk.old) (λ was. JournalAnswers result (D.may_leave disk.new) was) }
    ensures run { IfOk result (λ v. (kept v).stop ≡ None) }
    ensures cause { IfErr result IsOfOpening }
    ensures reads { OnlyReads D.seen D.may_leave D.moment D.left_since disk.old disk.new }
    ensures disk { DiskCounts (D.faults disk.old) (D.faults disk.new) result }
{
    match Journal::attach(alloc, disk) {
        Ok(journal) => Ok(journal),
        Err(fault) => Err(of_store(fault)),
    }
}

/// Moves a store from SNAP entry `at` on to a spare, or ends a move that was cut. The refusals, in this order: `NoStore` and `Damaged`
/// as the disk holds no journal or bytes of it are none, and `NoStore` also where the header has no head; `Range` where the mark names
/// another entry; `Unreplayed` with the first entry up to `at` that doesn't replay; `Range` where `at` isn't a SNAP entry's number, or
/// that or the count there is 2^61 or more; without a mark `NotEmpty` where a journal stands on the spare, or may stand there; with it
/// `OtherSpare` where the spare holds no base of the store; `Full` where the base or the mark passes a journal's greatest length.
/// `DiskFault` and `SpareFault` come only where that disk's count rose.
///
/// At any moment, whichever call fails: where an image of the spare is a journal, each image of the store has the mark; the store's
/// stand for its journal, with the mark or without, and what is new on the spare is free, or stands for the moved journal. Behind Ok
/// the store has the mark, and the spare stands for the moved journal.
pub fn retain<D: Disk, E: Disk>(
    alloc: Global,
    disk: &mut D,
    at: u64,
    spare: &mut E,
) -> Result<(), RetainFault>
    ensures together { IfSome (D.seen disk.old) (λ was. IfSome (E.seen spare.old) (λ other. ((c e : List ℕ) → D.may_leave disk.old c → E.may_leave spare.old e → IsSafe c e) → (IsUnmarked was → Each (E.may_leave spare.old) IsFree)
        → RetainsTogether D.moment D.left_since D.may_leave E.moment E.left_since E.may_leave disk.old disk.new spare.old spare.new IsSafe)) }
    ensures store { IfSome (D.seen disk.old) (λ was. LeavesOnly D.moment D.left_since disk.old disk.new (IsStoreImage at was (D.may_leave disk.old))) }
    ensures spare { IfSome (D.seen disk.old) (λ was. IfSome (E.seen spare.old) (λ other. (IsUnmarked was → Each (E.may_leave spare.old) IsFree) → LeavesOnly E.moment E.left_since spare.old spare.new (IsSpareImage at was (E.may_leave spare.old)))) }
    ensures answers { IfSome (D.seen disk.old) (λ was. RetainAnswers at was (E.seen spare.old) result) }
    ensures opens { OnOk result (IfSome (D.seen disk.old) (λ was. BothTold (E.seen spare.old) (E.seen spare.new) (Opens at was (E.may_leave spare.new)))) }
    ensures retires { OnOk result (BothTold (D.seen disk.old) (D.seen disk.new) (Retires at (D.may_leave disk.new))) }
    ensures left { WhereLeft result (OnlyReads D.seen D.may_leave D.moment D.left_since disk.old disk.new) (spare.new ≡ spare.old) (E.seen spare.new ≡ E.seen spare.old) }
    ensures faults { MoveCounts (D.faults disk.old) (D.faults disk.new) (E.faults spare.old) (E.faults spare.new) result }
{
    let mut journal = match open(alloc, disk) {
        Ok(journal) => journal,
        Err(fault) => return Err(fault),
    };
    let base = match build(alloc, &mut journal, disk, at) {
        Ok(base) => base,
        Err(fault) => return Err(fault),
    };
    retain_base(&mut journal, disk, at, spare, &base.bytes, base.header)
}
