//! A spare is compared with bytes.

ghost use Rattle.std.specs.Prelude.{ℕ, List, ◌≡◌, ◌≤◌, ◌<◌, ◌+◌, ◌^◌, ◌↔◌, IsTrue, IfOk, IfSome, length, take, drop, replicate};
ghost use Rattle.avm_outside.specs.Moments.{LeavesOnly};
ghost use Rattle.avm_outside.specs.Outside.{Counts};
ghost use Rattle.spare_base.specs.Kinds.{HasZeros};

use avm_outside::{Disk, Failed};

/// Whether these few bytes stand at a place.
fn stands_there<E: Disk>(spare: &mut E, at: u64, bytes: &[u8]) -> Result<bool, Failed>
    requires few { length bytes.now ≤ 4096 }
    ensures there { IfOk result (λ b. IfSome (E.seen spare.old) (λ was. IsTrue b ↔ (take (length bytes.now) (drop at was) ≡ bytes.now))) }
    ensures same { E.seen spare.new ≡ E.seen spare.old }
    ensures crash { (c : List ℕ) → E.may_leave spare.new c → E.may_leave spare.old c }
    ensures any_moment { LeavesOnly E.moment E.left_since spare.old spare.new (E.may_leave spare.old) }
    ensures faults { Counts (E.faults spare.old) (E.faults spare.new) result }
{
    let mut buffer = [0u8; 4096];
    let n = spare.read_at(at, &mut buffer)?;
    let size = n.min(bytes.len());
    Ok(buffer[..size] == bytes[..])
}

/// Whether only 00 stands in so many places.
fn is_clear_there<E: Disk>(spare: &mut E, at: u64, size: usize) -> Result<bool, Failed>
    requires few { size ≤ 4096 }
    ensures clear { IfOk result (λ b. IfSome (E.seen spare.old) (λ was. IsTrue b ↔ HasZeros at (at + size) was)) }
    ensures same { E.seen spare.new ≡ E.seen spare.old }
    ensures crash { (c : List ℕ) → E.may_leave spare.new c → E.may_leave spare.old c }
    ensures any_moment { LeavesOnly E.moment E.left_since spare.old spare.new (E.may_leave spare.old) }
    ensures faults { Counts (E.faults spare.old) (E.faults spare.new) result }
{
    let mut buffer = [0u8; 4096];
    let zeros = [0u8; 4096];
    let n = spare.read_at(at, &mut buffer)?;
    let size = n.min(size);
    Ok(buffer[..size] == zeros[..size])
}

/// Whether these bytes stand at a place.
pub fn stands<E: Disk>(spare: &mut E, at: u64, bytes: &[u8]) -> Result<bool, Failed>
    requires fits { at + length bytes.now < 2 ^ 63 }
    ensures there { IfOk result (λ b. IfSome (E.seen spare.old) (λ was. IsTrue b ↔ (take (length bytes.now) (drop at was) ≡ bytes.now))) }
    ensures same { E.seen spare.new ≡ E.seen spare.old }
    ensures crash { (c : List ℕ) → E.may_leave spare.new c → E.may_leave spare.old c }
    ensures any_moment { LeavesOnly E.moment E.left_since spare.old spare.new (E.may_leave spare.old) }
    ensures faults { Counts (E.faults spare.old) (E.faults spare.new) result }
{
    let mut done = 0;
    while done < bytes.len() {
        let size = (bytes.len() - done).min(4096);
        if !stands_there(spare, at + done as u64, &bytes[done..done + size])? {
            return Ok(false);
        }
        done += size;
    }
    Ok(true)
}

/// Whether only 00 stands from a place up to another.
pub fn is_clear<E: Disk>(spare: &mut E, from: u64, end: u64) -> Result<bool, Failed>
    requires end { end ≤ 2 ^ 31 }
    ensures clear { IfOk result (λ b. IfSome (E.seen spare.old) (λ was. IsTrue b ↔ HasZeros from end was)) }
    ensures same { E.seen spare.new ≡ E.seen spare.old }
    ensures crash { (c : List ℕ) → E.may_leave spare.new c → E.may_leave spare.old c }
    ensures any_moment { LeavesOnly E.moment E.left_since spare.old spare.new (E.may_leave spare.old) }
    ensures faults { Counts (E.faults spare.old) (E.faults spare.new) result }
{
    let mut at = from;
    while at < end {
        let size = (end - at).min(4096);
        if !is_clear_there(spare, at, size as usize)? {
            return Ok(false);
        }
        at += size;
    }
    Ok(true)
}
