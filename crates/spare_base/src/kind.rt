//! What a spare is, beside a base.

ghost use Rattle.std.specs.Prelude.{ℕ, List, ◌≡◌, ◌≤◌, ◌+◌, ◌∷◌, [], ◌++◌, ◌↔◌, IsTrue, IfOk, IfSome, length, take, drop};
ghost use Rattle.avm_outside.specs.Outside.{Counts};
ghost use Rattle.avm_outside.specs.Moments.{LeavesOnly};
ghost use Rattle.base_model.specs.Spare.{IsFree, IsKind, IsPrepared};
ghost use Rattle.spare_disk.specs.Activating.{Each};
ghost use Rattle.spare_base.specs.Kinds.{kind_view};

use crate::comparing::{is_clear, stands};
use avm_outside::{Disk, Failed};

/// What a spare is, beside a base.
#[derive(Clone, Copy, Debug, PartialEq, Eq)]
pub enum Spare {
    /// It has at most one byte, or its first byte isn't a journal's.
    Free,
    /// It has the base but for its first byte, and only 00 behind it.
    Prepared,
    /// It has the base's header, and an open gate behind it.
    Active,
    /// Something else.
    Other,
}

/// Whether a spare has at most one byte, or another first byte than a journal's.
fn is_free<E: Disk>(spare: &mut E) -> Result<bool, Failed>
    ensures free { IfOk result (λ b. IfSome (E.seen spare.old) (λ was. IsTrue b ↔ IsFree was)) }
    ensures same { E.seen spare.new ≡ E.seen spare.old }
    ensures crash { (c : List ℕ) → E.may_leave spare.new c → E.may_leave spare.old c }
    ensures any_moment { LeavesOnly E.moment E.left_since spare.old spare.new (E.may_leave spare.old) }
    ensures faults { Counts (E.faults spare.old) (E.faults spare.new) result }
{
    let mut front = [0u8; 2];
    let n = spare.read_at(0, &mut front)?;
    if n <= 1 {
        return Ok(true);
    }
    Ok(front[0] != 0x41)
}

/// Whether a free spare has a base but for its first byte, and only 00 behind it.
fn is_prepared<E: Disk>(spare: &mut E, base: &[u8]) -> Result<bool, Failed>
    requires some { 2 ≤ length base.now }
    requires free { IfSome (E.seen spare.old) IsFree }
    ensures prepared { IfOk result (λ b. IfSome (E.seen spare.old) (λ was. IsTrue b ↔ IsPrepared (drop 1 base.now) was)) }
    ensures same { E.seen spare.new ≡ E.seen spare.old }
    ensures crash { (c : List ℕ) → E.may_leave spare.new c → E.may_leave spare.old c }
    ensures any_moment { LeavesOnly E.moment E.left_since spare.old spare.new (E.may_leave spare.old) }
    ensures faults { Counts (E.faults spare.old) (E.faults spare.new) result }
{
    if !stands(spare, 1, &base[1..])? {
        return Ok(false);
    }
    is_clear(spare, base.len() as u64, 1 << 31)
}

/// Syncs, and tells what a spare is beside a base whose header has so many bytes.
pub fn spare_kind<E: Disk>(spare: &mut E, base: &[u8], header: usize) -> Result<Spare, Failed>
    requires header { header + 1 ≤ length base.now }
    requires some { 1 ≤ header }
    requires gate { take (header + 1) base.now ≡ take header base.now ++ 1 ∷ [] }
    ensures kind { IfOk result (λ k. IfSome (E.seen spare.old) (λ was. IsKind (take header base.now) (drop 1 base.now) (kind_view k) was × Each (E.may_leave spare.new) (λ c. c ≡ was))) }
    ensures same { E.seen spare.new ≡ E.seen spare.old }
    ensures crash { (c : List ℕ) → E.may_leave spare.new c → E.may_leave spare.old c }
    ensures any_moment { LeavesOnly E.moment E.left_since spare.old spare.new (E.may_leave spare.old) }
    ensures faults { Counts (E.faults spare.old) (E.faults spare.new) result }
{
    spare.sync()?;
    if stands(spare, 0, &base[..header + 1])? {
        return Ok(Spare::Active);
    }
    if !is_free(spare)? {
        return Ok(Spare::Other);
    }
    if is_prepared(spare, base)? {
        return Ok(Spare::Prepared);
    }
    Ok(Spare::Free)
}
