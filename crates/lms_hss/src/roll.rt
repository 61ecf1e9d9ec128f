//! An open roll.

ghost use Rattle.std.specs.Prelude.{◌≡◌, ◌+◌, ◌*◌, ◌^◌, ◌≤◌, ◌<◌, ℕ, List, length, IfOk, IfSome, OnOk, MatchOption, true, false, IfErr, ◌⊎◌, ◌++◌, ◌∷◌, []};
ghost use Rattle.avm_outside.specs.Outside.{Counts, BothTold};
ghost use Rattle.avm_outside.specs.Moments.{LeavesOnly};
ghost use Rattle.hss_model.specs.Hss.{is_hss_key};
ghost use Rattle.hss_model.specs.Roll.{RollData, roll_of, most_of, IsEither, roll_mark};
ghost use Rattle.lms_hss.specs.Opening.{AttachAnswers, MakeAnswers};
ghost use Rattle.lms_hss.specs.Own.{OnlyReads, IsCounted, IsOwn, IsRollState, BindAnswers, EnrollAnswers, EnrollEnds, CountsFaults};

use crate::appending::append;
use crate::fault::RollFault;
use crate::granted::Granted;
use crate::opening::{count_bound, read_header};
use crate::reading::{find, place};
use crate::verifying::leaves;
use avm_outside::{Disk, Failed, write_kept};
use std::marker::Model;

/// Binds a bottom key in a roll of so many keys, of so many at most: the leaf, or none where the key is new and no leaf is left.
fn bind<D: Disk>(
    disk: &mut D,
    count: u32,
    most: u32,
    bottom: &[u8; 56],
) -> Result<Option<u32>, Failed>
    requires few { count ≤ most }
    requires most { most ≤ 2 ^ 25 }
    requires roll { IfSome (D.seen disk.old) (λ was. (r : RollData) × IsCounted count most (D.may_leave disk.old) was r) }
    ensures answers { IfOk result (λ f. BothTold (D.seen disk.old) (D.seen disk.new) (λ was now. (r : RollData) → IsCounted count most (D.may_leave disk.old) was r → BindAnswers f (D.may_leave disk.new) now r bottom.now)) }
    ensures within { IfOk result (λ f. IfSome f (λ leaf. (leaf ≤ count) × (leaf < most))) }
    ensures stands { BothTold (D.seen disk.old) (D.seen disk.new) (λ was now. (r : RollData) → IsCounted count most (D.may_leave disk.old) was r → IsEither r bottom.now now) }
    ensures any_moment { IfSome (D.seen disk.old) (λ was. (r : RollData) → IsCounted count most (D.may_leave disk.old) was r → LeavesOnly D.moment D.left_since disk.old disk.new (IsEither r bottom.now)) }
    ensures faults { Counts (D.faults disk.old) (D.faults disk.new) result }
{
    if let Some(leaf) = find(disk, count, bottom)? {
        return Ok(Some(leaf));
    }
    if count == most {
        return Ok(None);
    }
    append(disk, place(count), bottom)?;
    Ok(Some(count))
}

/// A roll's header and a closed gate.
fn header(key: &[u8; 60]) -> [u8; 66]
    ensures { result ≡ roll_mark ++ (key.now ++ 0 ∷ []) }
{
    let mut bytes = [0u8; 66];
    bytes[..5].copy_from_slice(&[65, 86, 77, 82, 1]);
    bytes[5..65].copy_from_slice(key);
    bytes
}

/// An open roll: its HSS key, the number of its bottom keys, and whether it has ended. It doesn't hold its disk.
#[derive(Drop)]
pub struct Roll {
    key: [u8; 60],
    count: u32,
    is_ended: bool,
}

impl Model for Roll {
    ghost use Rattle.lms_hss.specs.Own.{RollState, IsRollState};

    ghost Value = { RollState };

    ghost view = { λ v. record { key = v.key; count = v.count; is_ended = v.is_ended } };

    ghost invariant = { λ v. IsRollState (record { key = v.key; count = v.count; is_ended = v.is_ended }) };
}

impl Roll {
    /// The HSS key.
    pub fn key(&self) -> [u8; 60]
        ensures { result ≡ self.now.key }
    {
        let key = self.key;
        key
    }

    /// Gives the leaf of a bottom key, to which it binds the key where it isn't there.
    pub fn enroll<D: Disk>(&mut self, disk: &mut D, bottom: &[u8; 56]) -> Result<Granted, RollFault>
        requires own { self.old.is_ended ≡ false → IfSome (D.seen disk.old) (λ was. (r : RollData) × IsOwn self.old (D.may_leave disk.old) was r) }
        ensures answers { self.old.is_ended ≡ false → BothTold (D.seen disk.old) (D.seen disk.new) (λ was now. (r : RollData) → IsOwn self.old (D.may_leave disk.old) was r
            → EnrollAnswers self.old self.new (D.may_leave disk.new) now r bottom.now result) }
        ensures granted { IfOk result (λ g. (g.bottom ≡ bottom.now) × (g.leaf < most_of self.old.key)) }
        ensures ends { EnrollEnds self.old self.new result }
        ensures stands { self.old.is_ended ≡ false → BothTold (D.seen disk.old) (D.seen disk.new) (λ was now. (r : RollData) → IsOwn self.old (D.may_leave disk.old) was r → IsEither r bottom.now now) }
        ensures any_moment { self.old.is_ended ≡ false → IfSome (D.seen disk.old) (λ was. (r : RollData) → IsOwn self.old (D.may_leave disk.old) was r
            → LeavesOnly D.moment D.left_since disk.old disk.new (IsEither r bottom.now)) }
        ensures faults { CountsFaults (D.faults disk.old) (D.faults disk.new) result }
    {
        if self.is_ended {
            return Err(RollFault::Ended);
        }
        match bind(disk, self.count, leaves(&self.key), bottom) {
            Ok(Some(leaf)) => {
                if leaf == self.count {
                    self.count += 1;
                }
                Ok(Granted::new(leaf, *bottom))
            }
            Ok(None) => Err(RollFault::LeavesSpent),
            Err(Failed) => {
                self.is_ended = true;
                Err(RollFault::DiskFault)
            }
        }
    }

    /// Makes a roll without bottom keys on an empty disk, for an HSS key with types of the tables.
    pub fn make<D: Disk>(disk: &mut D, key: &[u8; 60]) -> Result<Roll, RollFault>
        requires key { is_hss_key key.now ≡ true }
        ensures answers { BothTold (D.seen disk.old) (D.seen disk.new) (λ was now. MakeAnswers (λ v. v) (D.may_leave disk.new) was now key.now result) }
        ensures untouched { IfErr result (λ e. e ≡ RollFault.NotEmpty → D.seen disk.new ≡ D.seen disk.old) }
        ensures faults { CountsFaults (D.faults disk.old) (D.faults disk.new) result }
    {
        match disk.len() {
            Ok(0) => {}
            Ok(_) => return Err(RollFault::NotEmpty),
            Err(Failed) => return Err(RollFault::DiskFault),
        }
        match write_kept(disk, 0, &header(key)) {
            Ok(()) => Ok(Roll {
                key: *key,
                count: 0,
                is_ended: false,
            }),
            Err(Failed) => Err(RollFault::DiskFault),
        }
    }

    /// Opens the roll of a disk.
    pub fn attach<D: Disk>(disk: &mut D) -> Result<Roll, RollFault>
        ensures answers { IfSome (D.seen disk.old) (λ was. AttachAnswers (λ v. v) (D.may_leave disk.new) was result) }
        ensures fault { IfErr result (λ e. (e ≡ RollFault.DiskFault) ⊎ (e ≡ RollFault.NoRoll)) }
        ensures reads { OnlyReads D.seen D.may_leave D.moment D.left_since disk.old disk.new }
        ensures faults { CountsFaults (D.faults disk.old) (D.faults disk.new) result }
    {
        let Ok(()) = disk.sync() else {
            return Err(RollFault::DiskFault);
        };
        let key = match read_header(disk) {
            Ok(Some(key)) => key,
            Ok(None) => return Err(RollFault::NoRoll),
            Err(Failed) => return Err(RollFault::DiskFault),
        };
        match count_bound(disk, leaves(&key)) {
            Ok(count) => Ok(Roll {
                key,
                count,
                is_ended: false,
            }),
            Err(Failed) => Err(RollFault::DiskFault),
        }
    }
}
