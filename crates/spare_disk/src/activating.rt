//! A prepared spare becomes a journal.

ghost use Rattle.std.specs.Prelude.{◌≡◌, ℕ, List, IfSome, OnOk, OnErr};
ghost use Rattle.avm_outside.specs.Outside.{Counts, BothTold};
ghost use Rattle.avm_outside.specs.Moments.{LeavesOnly};
ghost use Rattle.base_model.specs.Spare.{IsPrepared, IsWhole};
ghost use Rattle.spare_disk.specs.Activating.{Each, IsPreparedOrWhole};

use avm_outside::{Disk, Failed, write_kept};

/// Makes a prepared spare a journal: writes its first byte, and syncs. At any moment the base is prepared or whole.
pub fn activate<E: Disk>(spare: &mut E) -> Result<(), Failed>
    requires prepared { IfSome (E.seen spare.old) (λ was. (behind : List ℕ) × IsPrepared behind was × Each (E.may_leave spare.old) (IsPrepared behind)) }
    ensures done { OnOk result (BothTold (E.seen spare.old) (E.seen spare.new) (λ was now. (behind : List ℕ) → IsPrepared behind was → IsWhole behind now × Each (E.may_leave spare.new) (λ c. c ≡ now))) }
    ensures failed { OnErr result (BothTold (E.seen spare.old) (E.seen spare.new) (λ was now. (behind : List ℕ) → IsPrepared behind was → Each (E.may_leave spare.old) (IsPrepared behind)
        → IsPreparedOrWhole behind now × Each (E.may_leave spare.new) (IsPreparedOrWhole behind))) }
    ensures any_moment { IfSome (E.seen spare.old) (λ was. (behind : List ℕ) → Each (E.may_leave spare.old) (IsPrepared behind)
        → LeavesOnly E.moment E.left_since spare.old spare.new (IsPreparedOrWhole behind)) }
    ensures faults { Counts (E.faults spare.old) (E.faults spare.new) result }
{
    write_kept(spare, 0, &[0x41])
}
