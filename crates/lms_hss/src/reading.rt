// The records of a roll are read.
ghost use Rattle.std.specs.Prelude.{◌≡◌, ◌+◌, ◌*◌, ◌^◌, ◌≤◌, ◌<◌, ℕ, List, length, take, drop, IfOk, IfSome, IsTrue, ◌↔◌, true, Some};
ghost use Rattle.avm_outside.specs.Outside.{Counts};
ghost use Rattle.hss_model.specs.Roll.{RollData, roll_of};
ghost use Rattle.lms_hss.specs.Own.{OnlyReads, is_shut as is_shut_of, IsFound};

use avm_outside::{Disk, Failed};

/// Where the record of a leaf stands.
pub fn place(leaf: u32) -> u64
    requires { leaf ≤ 2 ^ 25 }
    ensures { result ≡ 65 + 57 * leaf }
{
    65 + 57 * leaf as u64
}

/// Whether a closed gate stands at a place.
pub fn is_shut<D: Disk>(disk: &mut D, gate: u64) -> Result<bool, Failed>
    ensures shut { IfOk result (λ b. IfSome (D.seen disk.old) (λ was. b ≡ is_shut_of (take 1 (drop gate was)))) }
    ensures reads { OnlyReads D.seen D.may_leave D.moment D.left_since disk.old disk.new }
    ensures faults { Counts (D.faults disk.old) (D.faults disk.new) result }
{
    let mut byte = [0u8; 1];
    let n = disk.read_at(gate, &mut byte)?;
    Ok(n == 1 && byte[0] != 1)
}

/// Whether this bottom key stands in the record of a leaf.
pub fn stands<D: Disk>(disk: &mut D, leaf: u32, bottom: &[u8; 56]) -> Result<bool, Failed>
    requires few { leaf ≤ 2 ^ 25 }
    ensures there { IfOk result (λ b. IfSome (D.seen disk.old) (λ was. IsTrue b ↔ (take 56 (drop (66 + 57 * leaf) was) ≡ bottom.now))) }
    ensures reads { OnlyReads D.seen D.may_leave D.moment D.left_since disk.old disk.new }
    ensures faults { Counts (D.faults disk.old) (D.faults disk.new) result }
{
    let mut key = [0u8; 56];
    let n = disk.read_at(place(leaf) + 1, &mut key)?;
    Ok(key[..n] == bottom[..])
}

/// The leaf to which a bottom key is bound, of so many.
pub fn find<D: Disk>(disk: &mut D, count: u32, bottom: &[u8; 56]) -> Result<Option<u32>, Failed>
    requires few { count ≤ 2 ^ 25 }
    ensures found { IfOk result (λ f. IfSome (D.seen disk.old) (λ was. (r : RollData) → roll_of was ≡ Some r → length r.bottoms ≡ count → IsFound f r.bottoms bottom.now)) }
    ensures within { IfOk result (λ f. IfSome f (λ leaf. leaf < count)) }
    ensures reads { OnlyReads D.seen D.may_leave D.moment D.left_since disk.old disk.new }
    ensures faults { Counts (D.faults disk.old) (D.faults disk.new) result }
{
    for leaf in 0..count {
        if stands(disk, leaf, bottom)? {
            return Ok(Some(leaf));
        }
    }
    Ok(None)
}
