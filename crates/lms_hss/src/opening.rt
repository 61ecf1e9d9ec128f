// A roll's header, and how many bottom keys stand behind it.
ghost use Rattle.std.specs.Prelude.{◌≡◌, ◌&&◌, ◌+◌, ◌*◌, ◌^◌, ◌≤◌, ◌<◌, ℕ, List, length, take, drop, min, IfOk, IfSome, OnOk, MatchOption, true, false, Bool, is_some};
ghost use Rattle.std.specs.Str.{bytes_eq};
ghost use Rattle.avm_num.specs.Walk.{walk};
ghost use Rattle.avm_outside.specs.Outside.{Counts};
ghost use Rattle.hss_model.specs.Hss.{is_hss_key};
ghost use Rattle.hss_model.specs.Roll.{RollData, roll_of, bound_at, roll_mark};
ghost use Rattle.lms_hss.specs.Own.{OnlyReads};
ghost use Rattle.lms_hss.specs.Opening.{has_header};

use crate::reading::place;
use crate::verifying::is_key;
use avm_outside::{Disk, Failed};

/// Whether a bottom key is bound at a leaf.
fn is_bound<D: Disk>(disk: &mut D, leaf: u32) -> Result<bool, Failed>
    requires few { leaf ≤ 2 ^ 25 }
    ensures bound { IfOk result (λ b. IfSome (D.seen disk.old) (λ was. b ≡ is_some (bound_at (drop (65 + 57 * leaf) was)))) }
    ensures reads { OnlyReads D.seen D.may_leave D.moment D.left_since disk.old disk.new }
    ensures faults { Counts (D.faults disk.old) (D.faults disk.new) result }
{
    let mut record = [0u8; 57];
    let n = disk.read_at(place(leaf), &mut record)?;
    Ok(n == 57 && record[0] == 1)
}

/// How many bottom keys are bound, of so many at most.
pub fn count_bound<D: Disk>(disk: &mut D, most: u32) -> Result<u32, Failed>
    requires few { most ≤ 2 ^ 25 }
    ensures count { IfOk result (λ n. IfSome (D.seen disk.old) (λ was. n ≡ length (walk bound_at most (drop 65 was)).0)) }
    ensures low { IfOk result (λ n. n ≤ most) }
    ensures reads { OnlyReads D.seen D.may_leave D.moment D.left_since disk.old disk.new }
    ensures faults { Counts (D.faults disk.old) (D.faults disk.new) result }
{
    for leaf in 0..most {
        if !is_bound(disk, leaf)? {
            return Ok(leaf);
        }
    }
    Ok(most)
}

/// The HSS key of a roll's header, which stands at the front of bytes.
fn key_in(front: &[u8]) -> Option<[u8; 60]>
    ensures key { MatchOption result (has_header front.now ≡ false) (λ key. (has_header front.now ≡ true) × (key ≡ take 60 (drop 5 front.now))) }
    ensures fits { IfSome result (λ key. is_hss_key key ≡ true) }
{
    if front.len() < 65 {
        return None;
    }
    if front[..5] != [65, 86, 77, 82, 1] {
        return None;
    }
    let mut key = [0u8; 60];
    key.copy_from_slice(&front[5..65]);
    if is_key(&key) { Some(key) } else { None }
}

/// Reads the header at the front of a disk.
pub fn read_header<D: Disk>(disk: &mut D) -> Result<Option<[u8; 60]>, Failed>
    ensures key { IfOk result (λ o. IfSome (D.seen disk.old) (λ was. MatchOption o (has_header was ≡ false) (λ key. (has_header was ≡ true) × (key ≡ take 60 (drop 5 was))))) }
    ensures fits { IfOk result (λ o. IfSome o (λ key. is_hss_key key ≡ true)) }
    ensures reads { OnlyReads D.seen D.may_leave D.moment D.left_since disk.old disk.new }
    ensures faults { Counts (D.faults disk.old) (D.faults disk.new) result }
{
    let mut front = [0u8; 65];
    let n = disk.read_at(0, &mut front)?;
    Ok(key_in(&front[..n]))
}
