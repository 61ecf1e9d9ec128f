//! A store moves.

ghost use Rattle.std.specs.Prelude.{◌≡◌, ◌^◌, ◌≤◌, None, true, List, length, drop, IfSome, OnOk};
ghost use Rattle.avm_outside.specs.Outside.{BothTold};
ghost use Rattle.avm_outside.specs.Moments.{LeavesOnly};
ghost use Rattle.base_model.specs.Spare.{IsFree, IsSafe, IsWhole, TogetherOnly};
ghost use Rattle.journal_model.specs.Journal.{JournalData, entries, has_snap};
ghost use Rattle.jrnl_store.specs.Kept.{kept};
ghost use Rattle.jrnl_store.specs.Own.{IsOwn};
ghost use Rattle.jrnl_store.specs.Retiring.{StandsForMarked, with_mark_at};
ghost use Rattle.spare_disk.specs.Activating.{Each};
ghost use Rattle.store_move.specs.Moving.{IsFreeOrWhole, MoveCause, MoveCounts, WhereFull, of_retire as of_retire_of};

use crate::fault::RetainFault;
use avm_outside::{Disk, Failed};
use jrnl_store::{Journal, StoreFault};
use spare_base::prepare;
use spare_disk::activate;

/// Why a store isn't moved whose mark isn't written.
fn of_retire(fault: StoreFault) -> RetainFault
    ensures { result ≡ of_retire_of fault }
{
    match fault {
        StoreFault::Full => RetainFault::Full,
        _ => RetainFault::DiskFault,
    }
}

/// Moves a store: prepares the spare, writes the mark that names SNAP entry `at`, and activates the spare. At any moment each image
/// of the spare is free, or each image of the store has the mark. The store's images stand for its journal, with the mark or without;
/// the spare's are free, or have the whole base.
pub fn move_store<D: Disk, E: Disk>(
    journal: &mut Journal,
    disk: &mut D,
    at: u64,
    spare: &mut E,
    base: &[u8],
) -> Result<(), RetainFault>
    requires own { IfSome (D.seen disk.old) (λ was. (j : JournalData) × IsOwn (kept journal.old) (D.may_leave disk.old) was j × (has_snap at (entries j) ≡ true)) }
    requires unmarked { (kept journal.old).mark ≡ None }
    requires run { (kept journal.old).stop ≡ None }
    requires some { 1 ≤ length base.now }
    requires fits { length base.now ≤ 2 ^ 30 }
    requires free { IfSome (E.seen spare.old) IsFree }
    ensures together { IfSome (D.seen disk.old) (λ was. IfSome (E.seen spare.old) (λ other. (j : JournalData) → IsOwn (kept journal.old) (D.may_leave disk.old) was j → has_snap at (entries j) ≡ true → Each (E.may_leave spare.old) IsFree
        → TogetherOnly D.moment D.left_since D.may_leave E.moment E.left_since E.may_leave disk.old disk.new spare.old spare.new IsSafe)) }
    ensures marked { OnOk result (BothTold (D.seen disk.old) (D.seen disk.new) (λ was now. (j : JournalData) → IsOwn (kept journal.old) (D.may_leave disk.old) was j → has_snap at (entries j) ≡ true
        → IsOwn (kept journal.new) (D.may_leave disk.new) now (with_mark_at j at))) }
    ensures moved { OnOk result (BothTold (E.seen spare.old) (E.seen spare.new) (λ was now. IsWhole (drop 1 base.now) now × Each (E.may_leave spare.new) (λ c. c ≡ now))) }
    ensures store { IfSome (D.seen disk.old) (λ was. (j : JournalData) → IsOwn (kept journal.old) (D.may_leave disk.old) was j → has_snap at (entries j) ≡ true → LeavesOnly D.moment D.left_since disk.old disk.new (StandsForMarked j at)) }
    ensures spare { IfSome (E.seen spare.old) (λ was. Each (E.may_leave spare.old) IsFree → LeavesOnly E.moment E.left_since spare.old spare.new (IsFreeOrWhole (drop 1 base.now))) }
    ensures run { OnOk result ((kept journal.new).stop ≡ None) }
    ensures full { WhereFull result (disk.new ≡ disk.old) }
    ensures cause { MoveCause (kept journal.old) at result }
    ensures faults { MoveCounts (D.faults disk.old) (D.faults disk.new) (E.faults spare.old) (E.faults spare.new) result }
{
    let Ok(()) = prepare(spare, base) else {
        return Err(RetainFault::SpareFault);
    };
    match journal.retire(disk, at) {
        Ok(()) => {}
        Err(fault) => return Err(of_retire(fault)),
    }
    match activate(spare) {
        Ok(()) => Ok(()),
        Err(Failed) => Err(RetainFault::SpareFault),
    }
}
