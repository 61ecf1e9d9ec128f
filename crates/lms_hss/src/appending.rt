// A bottom key is written behind the last one of a roll.
ghost use Rattle.std.specs.Prelude.{◌≡◌, ◌+◌, ◌*◌, ◌^◌, ◌≤◌, ◌<◌, ◌∷◌, [], ◌++◌, ℕ, List, length, take, drop, IfOk, IfSome, OnOk, Some};
ghost use Rattle.avm_outside.specs.Outside.{Counts, BothTold};
ghost use Rattle.avm_outside.specs.Moments.{LeavesOnly, IsShut};
ghost use Rattle.disk_gates.specs.Writing.{Each};
ghost use Rattle.hss_model.specs.Roll.{RollData, roll_of, roll_bytes, IsRollDisk, IsEither, with_bottom};
ghost use Rattle.lms_hss.specs.Own.{HasRoom};

use crate::reading::is_shut;
use avm_outside::{Disk, Failed, write_kept};
use disk_gates::write_record;

/// Writes a closed gate at a roll's end, where none stands there.
fn shut<D: Disk>(disk: &mut D, gate: u64) -> Result<(), Failed>
    requires fits { gate + 1 ≤ 2 ^ 31 }
    requires roll { IfSome (D.seen disk.old) (λ was. (r : RollData) × HasRoom gate (D.may_leave disk.old) was r) }
    ensures shut { OnOk result (BothTold (D.seen disk.old) (D.seen disk.new) (λ was now. (r : RollData) → HasRoom gate (D.may_leave disk.old) was r → IsShut (roll_bytes r) now × Each (D.may_leave disk.new) (IsShut (roll_bytes r)))) }
    ensures stands { BothTold (D.seen disk.old) (D.seen disk.new) (λ was now. (r : RollData) → HasRoom gate (D.may_leave disk.old) was r → roll_of now ≡ Some r) }
    ensures any_moment { IfSome (D.seen disk.old) (λ was. (r : RollData) → HasRoom gate (D.may_leave disk.old) was r → LeavesOnly D.moment D.left_since disk.old disk.new (λ c. roll_of c ≡ Some r)) }
    ensures faults { Counts (D.faults disk.old) (D.faults disk.new) result }
{
    if is_shut(disk, gate)? {
        return Ok(());
    }
    write_kept(disk, gate, &[0])
}

/// The bytes of a record behind its gate, and the next gate, which is closed.
fn staged(bottom: &[u8; 56]) -> [u8; 57]
    ensures { result ≡ bottom.now ++ 0 ∷ [] }
{
    let mut bytes = [0u8; 57];
    bytes[..56].copy_from_slice(bottom);
    bytes
}

/// Writes a bottom key behind the last one of a roll that has a leaf left. At any moment a crash leaves the roll as it was, or with
/// this key.
pub fn append<D: Disk>(disk: &mut D, gate: u64, bottom: &[u8; 56]) -> Result<(), Failed>
    requires fits { gate + 58 ≤ 2 ^ 31 }
    requires roll { IfSome (D.seen disk.old) (λ was. (r : RollData) × HasRoom gate (D.may_leave disk.old) was r) }
    ensures appended { OnOk result (BothTold (D.seen disk.old) (D.seen disk.new) (λ was now. (r : RollData) → HasRoom gate (D.may_leave disk.old) was r → IsRollDisk (D.may_leave disk.new) now (with_bottom r bottom.now))) }
    ensures stands { BothTold (D.seen disk.old) (D.seen disk.new) (λ was now. (r : RollData) → HasRoom gate (D.may_leave disk.old) was r → IsEither r bottom.now now) }
    ensures any_moment { IfSome (D.seen disk.old) (λ was. (r : RollData) → HasRoom gate (D.may_leave disk.old) was r → LeavesOnly D.moment D.left_since disk.old disk.new (IsEither r bottom.now)) }
    ensures faults { Counts (D.faults disk.old) (D.faults disk.new) result }
{
    shut(disk, gate)?;
    write_record(disk, gate, &staged(bottom))
}
