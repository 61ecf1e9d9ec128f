//! Records behind gates on a disk.
#![tactic(auto)]

ghost use Rattle.std.specs.Prelude.{◌≡◌, ◌+◌, ◌^◌, ◌≤◌, ◌<◌, ℕ, List, length, IfSome, OnOk, OnErr};
ghost use Rattle.avm_outside.specs.Outside.{Counts, BothTold};
ghost use Rattle.avm_outside.specs.Moments.{LeavesOnly, Begins, IsShut};
ghost use Rattle.disk_gates.specs.Writing.{IsWritten, IsShutOrWritten, Each};

use avm_outside::{Disk, Failed, write_kept};

/// Writes a record behind a gate that is closed, also in each image that a crash may leave, and then opens the gate. At
/// any moment the gate is closed, or the whole record stands behind it.
pub fn write_record<D: Disk>(disk: &mut D, gate: u64, bytes: &[u8]) -> Result<(), Failed>
    requires fits { gate + 1 + length bytes.now ≤ 2 ^ 31 }
    requires within { IfSome (D.seen disk.old) (λ was. gate < length was) }
    ensures written { OnOk result (BothTold (D.seen disk.old) (D.seen disk.new) (λ was now.
        (front : List ℕ) → length front ≡ gate → IsShut front was → IsWritten front bytes.now now × Each (D.may_leave disk.new) (λ c. c ≡ now))) }
    ensures failed { OnErr result (BothTold (D.seen disk.old) (D.seen disk.new) (λ was now.
        (front : List ℕ) → length front ≡ gate → Begins front was → Each (D.may_leave disk.old) (Begins front) → Begins front now × Each (D.may_leave disk.new) (Begins front))) }
    ensures stands { BothTold (D.seen disk.old) (D.seen disk.new) (λ was now.
        (front : List ℕ) → length front ≡ gate → IsShut front was → IsShutOrWritten front bytes.now now) }
    ensures any_moment { IfSome (D.seen disk.old) (λ was.
        (front : List ℕ) → length front ≡ gate → IsShut front was → Each (D.may_leave disk.old) (IsShut front) → LeavesOnly D.moment D.left_since disk.old disk.new (IsShutOrWritten front bytes.now)) }
    ensures faults { Counts (D.faults disk.old) (D.faults disk.new) result }
{
    write_kept(disk, gate + 1, bytes)?;
    write_kept(disk, gate, &[1])
}
