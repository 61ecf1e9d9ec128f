//! A store is retained as a base on a spare: it moves there, or a move that was cut is ended.

ghost use Rattle.std.specs.Prelude.{ℕ, ◌≡◌, ◌+◌, ◌≤◌, ◌∷◌, [], ◌++◌, None, Some, true, List, length, take, drop, IfSome, OnOk};
ghost use Rattle.avm_outside.specs.Outside.{BothTold};
ghost use Rattle.avm_outside.specs.Moments.{LeavesOnly};
ghost use Rattle.base_model.specs.Spare.{IsFree, IsPrepared, IsSafe, IsWhole, TogetherOnly};
ghost use Rattle.journal_model.specs.Journal.{JournalData, entries, has_snap};
ghost use Rattle.jrnl_store.specs.Kept.{kept};
ghost use Rattle.jrnl_store.specs.Own.{IsOwn};
ghost use Rattle.jrnl_store.specs.Retiring.{StandsForMarked, with_mark_at};
ghost use Rattle.spare_disk.specs.Activating.{Each};
ghost use Rattle.store_move.specs.Moving.{EndCause, EndCounts, HasBase, IsFreeOrWhole, IsLong, IsOfMoving, IsSpareImage, KindAnswers, MoveCounts, ShortCause, WhereFull, WhereRefused};

use crate::fault::RetainFault;
use crate::moving::move_store;
use avm_outside::{Disk, Failed};
use jrnl_store::Journal;
use spare_base::{Spare, spare_kind};
use spare_disk::activate;

/// Ends a move that was cut, of a store that has the mark: activates a prepared spare, and leaves an active one.
fn end_move<E: Disk>(spare: &mut E, kind: Spare) -> Result<(), RetainFault>
    requires prepared { kind ≡ Spare.Prepared → IfSome (E.seen spare.old) (λ was. (behind : List ℕ) × IsPrepared behind was × Each (E.may_leave spare.old) (IsPrepared behind)) }
    ensures cause { EndCause kind result }
    ensures whole { OnOk result (kind ≡ Spare.Prepared → BothTold (E.seen spare.old) (E.seen spare.new) (λ was now. (behind : List ℕ) → IsPrepared behind was → IsWhole behind now × Each (E.may_leave spare.new) (λ c. c ≡ now))) }
    ensures left { OnOk result (kind ≡ Spare.Active → E.seen spare.new ≡ E.seen spare.old) }
    ensures any_moment { IfSome (E.seen spare.old) (λ was. LeavesOnly E.moment E.left_since spare.old spare.new (λ c. Unit {0})) }
    ensures spare { IfSome (E.seen spare.old) (λ was. (behind : List ℕ) → (kind ≡ Spare.Prepared → Each (E.may_leave spare.old) (IsPrepared behind)) → LeavesOnly E.moment E.left_since spare.old spare.new (IsSpareImage (E.may_leave spare.old) behind)) }
    ensures other { result ≡ Err RetainFault.OtherSpare → E.seen spare.new ≡ E.seen spare.old }
    ensures faults { EndCounts (E.faults spare.old) (E.faults spare.new) result }
{
    match kind {
        Spare::Active => Ok(()),
        Spare::Prepared => match activate(spare) {
            Ok(()) => Ok(()),
            Err(Failed) => Err(RetainFault::SpareFault),
        },
        Spare::Free => Err(RetainFault::OtherSpare),
        Spare::Other => Err(RetainFault::OtherSpare),
    }
}

/// Moves a store, if the base isn't longer than a journal can be.
fn move_short<D: Disk, E: Disk>(
    journal: &mut Journal,
    disk: &mut D,
    at: u64,
    spare: &mut E,
    base: &[u8],
) -> Result<(), RetainFault>
    requires own { IfSome (D.seen disk.old) (λ was. (j : JournalData) × IsOwn (kept journal.old) (D.may_leave disk.old) was j × (has_snap at (entries j) ≡ true)) }
    requires unmarked { (kept journal.old).mark ≡ None }
    requires run { (kept journal.old).stop ≡ None }
    requires some { 1 ≤ length base.now }
    requires free { IfSome (E.seen spare.old) IsFree }
    ensures together { IfSome (D.seen disk.old) (λ was. IfSome (E.seen spare.old) (λ other. (j : JournalData) → IsOwn (kept journal.old) (D.may_leave disk.old) was j → has_snap at (entries j) ≡ true → Each (E.may_leave spare.old) IsFree
        → TogetherOnly D.moment D.left_since D.may_leave E.moment E.left_since E.may_leave disk.old disk.new spare.old spare.new IsSafe)) }
    ensures marked { OnOk result (BothTold (D.seen disk.old) (D.seen disk.new) (λ was now. (j : JournalData) → IsOwn (kept journal.old) (D.may_leave disk.old) was j → has_snap at (entries j) ≡ true
        → IsOwn (kept journal.new) (D.may_leave disk.new) now (with_mark_at j at))) }
    ensures moved { OnOk result (BothTold (E.seen spare.old) (E.seen spare.new) (λ was now. IsWhole (drop 1 base.now) now × Each (E.may_leave spare.new) (λ c. c ≡ now))) }
    ensures store { IfSome (D.seen disk.old) (λ was. (j : JournalData) → IsOwn (kept journal.old) (D.may_leave disk.old) was j → has_snap at (entries j) ≡ true → LeavesOnly D.moment D.left_since disk.old disk.new (StandsForMarked j at)) }
    ensures spare { IfSome (E.seen spare.old) (λ was. Each (E.may_leave spare.old) IsFree → LeavesOnly E.moment E.left_since spare.old spare.new (IsFreeOrWhole (drop 1 base.now))) }
    ensures run { OnOk result ((kept journal.new).stop ≡ None) }
    ensures full { WhereFull result (disk.new ≡ disk.old) }
    ensures cause { ShortCause (drop 1 base.now) (kept journal.old) at result }
    ensures unwritten { IsLong (drop 1 base.now) → (disk.new ≡ disk.old) × (spare.new ≡ spare.old) }
    ensures faults { MoveCounts (D.faults disk.old) (D.faults disk.new) (E.faults spare.old) (E.faults spare.new) result }
{
    if base.len() > 1 << 30 {
        return Err(RetainFault::Full);
    }
    move_store(journal, disk, at, spare, base)
}

/// Moves a store without a mark to a spare that is free, and ends the move of a store that has it. `base` are the bytes of the base
/// that goes on from SNAP entry `at`, of which the header has so many; a longer base than a journal can be is `Full`, behind what the
/// spare is. At any moment each image of the spare is free, or each image of the store has the mark. The store's images stand for its
/// journal, with the mark or without; the spare's are those that it had, or free, or have the whole base.
pub fn retain_base<D: Disk, E: Disk>(
    journal: &mut Journal,
    disk: &mut D,
    at: u64,
    spare: &mut E,
    base: &[u8],
    header: usize,
) -> Result<(), RetainFault>
    requires own { IfSome (D.seen disk.old) (λ was. (j : JournalData) × IsOwn (kept journal.old) (D.may_leave disk.old) was j × (has_snap at (entries j) ≡ true)) }
    requires run { (kept journal.old).stop ≡ None }
    requires some { 1 ≤ header }
    requires header { header + 1 ≤ length base.now }
    requires gate { take (header + 1) base.now ≡ take header base.now ++ 1 ∷ [] }
    ensures together { IfSome (D.seen disk.old) (λ was. IfSome (E.seen spare.old) (λ other. (j : JournalData) → IsOwn (kept journal.old) (D.may_leave disk.old) was j → has_snap at (entries j) ≡ true → ((kept journal.old).mark ≡ None → Each (E.may_leave spare.old) IsFree)
        → TogetherOnly D.moment D.left_since D.may_leave E.moment E.left_since E.may_leave disk.old disk.new spare.old spare.new IsSafe)) }
    ensures marked { OnOk result (BothTold (D.seen disk.old) (D.seen disk.new) (λ was now. (j : JournalData) → IsOwn (kept journal.old) (D.may_leave disk.old) was j → has_snap at (entries j) ≡ true → (kept journal.old).mark ≡ None
        → IsOwn (kept journal.new) (D.may_leave disk.new) now (with_mark_at j at))) }
    ensures still { (n : ℕ) → (kept journal.old).mark ≡ Some n → disk.new ≡ disk.old }
    ensures store { IfSome (D.seen disk.old) (λ was. (j : JournalData) → IsOwn (kept journal.old) (D.may_leave disk.old) was j → has_snap at (entries j) ≡ true → (kept journal.old).mark ≡ None → LeavesOnly D.moment D.left_since disk.old disk.new (StandsForMarked j at)) }
    ensures spare { IfSome (E.seen spare.old) (λ was. ((kept journal.old).mark ≡ None → Each (E.may_leave spare.old) IsFree) → LeavesOnly E.moment E.left_since spare.old spare.new (IsSpareImage (E.may_leave spare.old) (drop 1 base.now))) }
    ensures run { OnOk result ((kept journal.new).stop ≡ None) }
    ensures cause { IsOfMoving result }
    ensures refused { WhereRefused (drop 1 base.now) result (disk.new ≡ disk.old) (E.seen spare.new ≡ E.seen spare.old) }
    ensures base { OnOk result (BothTold (E.seen spare.old) (E.seen spare.new) (HasBase (take header base.now) (drop 1 base.now) (E.may_leave spare.new))) }
    ensures answers { IfSome (E.seen spare.old) (λ was. KindAnswers (kept journal.old) at (take header base.now) (drop 1 base.now) was result) }
    ensures faults { MoveCounts (D.faults disk.old) (D.faults disk.new) (E.faults spare.old) (E.faults spare.new) result }
{
    let kind = match spare_kind(spare, base, header) {
        Ok(kind) => kind,
        Err(Failed) => return Err(RetainFault::SpareFault),
    };
    match journal.retired() {
        Some(_) => end_move(spare, kind),
        None => match kind {
            Spare::Active => Err(RetainFault::NotEmpty),
            Spare::Other => Err(RetainFault::NotEmpty),
            Spare::Free => move_short(journal, disk, at, spare, base),
            Spare::Prepared => move_short(journal, disk, at, spare, base),
        },
    }
}
