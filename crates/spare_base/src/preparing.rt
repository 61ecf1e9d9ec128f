//! A base is written to a spare, but for its first byte.

ghost use Rattle.std.specs.Prelude.{◌≡◌, ◌^◌, ◌≤◌, ℕ, List, length, drop, IfSome, OnOk};
ghost use Rattle.avm_outside.specs.Outside.{Counts, BothTold};
ghost use Rattle.avm_outside.specs.Moments.{LeavesOnly};
ghost use Rattle.base_model.specs.Spare.{IsFree, IsPrepared};
ghost use Rattle.spare_disk.specs.Activating.{Each};

use avm_outside::{Disk, Failed};
use spare_disk::{begin, finish, put};

/// Writes a base but for its first byte to a spare that is free, and 00 behind it: the spare is prepared. At any moment it is free.
pub fn prepare<E: Disk>(spare: &mut E, base: &[u8]) -> Result<(), Failed>
    requires some { 1 ≤ length base.now }
    requires fits { length base.now ≤ 2 ^ 30 }
    requires free { IfSome (E.seen spare.old) IsFree }
    ensures prepared { OnOk result (BothTold (E.seen spare.old) (E.seen spare.new) (λ was now. IsPrepared (drop 1 base.now) now × Each (E.may_leave spare.new) (λ c. c ≡ now))) }
    ensures any_moment { IfSome (E.seen spare.old) (λ was. Each (E.may_leave spare.old) IsFree → LeavesOnly E.moment E.left_since spare.old spare.new IsFree × Each (E.may_leave spare.new) IsFree) }
    ensures faults { Counts (E.faults spare.old) (E.faults spare.new) result }
{
    let len = begin(spare)?;
    put(spare, 1, &base[1..])?;
    finish(spare, base.len() as u64, len)
}
