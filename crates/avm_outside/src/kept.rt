// Writes that are made durable, and what a crash at any moment of them leaves.
ghost use Rattle.std.specs.Prelude.{◌≡◌, ◌+◌, ◌^◌, ◌≤◌, List, length, option_map, IfSome, OnOk, OnErr};
ghost use Rattle.avm_outside.specs.Outside.{Counts, BothTold};
ghost use Rattle.avm_outside.specs.Disk.{Only, Torn, Follows, overwritten};
ghost use Rattle.avm_outside.specs.Moments.{LeavesOnly, TornFrom};

use crate::{Disk, Failed};

/// Writes the bytes and syncs. At any moment a crash leaves what it might have left before, with some of the range written.
pub fn write_kept<D: Disk>(disk: &mut D, at: u64, bytes: &[u8]) -> Result<(), Failed>
    requires fits { at + length bytes.now ≤ 2 ^ 31 }
    requires within { IfSome (D.seen disk.old) (λ was. at ≤ length was) }
    ensures written { OnOk result (D.seen disk.new ≡ option_map (overwritten at bytes.now) (D.seen disk.old)) }
    ensures kept { OnOk result (IfSome (D.seen disk.new) (λ now. Only now (D.may_leave disk.new))) }
    ensures failed { OnErr result (BothTold (D.seen disk.old) (D.seen disk.new) (Torn at (length bytes.now))) }
    ensures crash { Follows (Torn at (length bytes.now)) (D.may_leave disk.old) (D.may_leave disk.new) }
    ensures any_moment { LeavesOnly D.moment D.left_since disk.old disk.new (TornFrom at (length bytes.now) (D.may_leave disk.old)) }
    ensures faults { Counts (D.faults disk.old) (D.faults disk.new) result }
{
    disk.write_at(at, bytes)?;
    disk.sync()
}
