//! A base is written to a spare behind its place 0, at every moment of which the spare is free.

ghost use Rattle.std.specs.Prelude.{◌≡◌, ◌+◌, ◌^◌, ◌≤◌, ◌++◌, ℕ, List, length, max, take, replicate, option_map, IfSome, IfOk, OnOk};
ghost use Rattle.avm_outside.specs.Outside.{Counts, BothTold};
ghost use Rattle.avm_outside.specs.Disk.{overwritten};
ghost use Rattle.avm_outside.specs.Moments.{LeavesOnly};
ghost use Rattle.base_model.specs.Spare.{IsFree, IsBlank, IsPrepared};
ghost use Rattle.spare_disk.specs.Activating.{Each};
ghost use Rattle.spare_disk.specs.Preparing.{IsBegun, IsWiped, HasPiece};

use avm_outside::{Disk, Failed, write_kept};

/// Syncs, and writes 00 at place 0 where the spare has at most one byte, so that a byte stands there that isn't a journal's first. Gives
/// the spare's length before.
pub fn begin<E: Disk>(spare: &mut E) -> Result<u64, Failed>
    requires free { IfSome (E.seen spare.old) IsFree }
    ensures begun { IfOk result (λ len. BothTold (E.seen spare.old) (E.seen spare.new) (IsBegun len (E.may_leave spare.new))) }
    ensures any_moment { IfSome (E.seen spare.old) (λ was. Each (E.may_leave spare.old) IsFree → LeavesOnly E.moment E.left_since spare.old spare.new IsFree × Each (E.may_leave spare.new) IsFree) }
    ensures faults { Counts (E.faults spare.old) (E.faults spare.new) result }
{
    spare.sync()?;
    let len = spare.len()?;
    if len <= 1 {
        write_kept(spare, 0, &[0])?;
    }
    Ok(len)
}

/// Writes behind place 0: where a base's first bytes stand there up to this place, further ones stand behind them.
pub fn put<E: Disk>(spare: &mut E, at: u64, bytes: &[u8]) -> Result<(), Failed>
    requires behind { 1 ≤ at }
    requires fits { at + length bytes.now ≤ 2 ^ 31 }
    requires within { IfSome (E.seen spare.old) (λ was. at ≤ length was) }
    ensures written { OnOk result (E.seen spare.new ≡ option_map (overwritten at bytes.now) (E.seen spare.old)) }
    ensures longer { OnOk result (BothTold (E.seen spare.old) (E.seen spare.new) (λ was now. (piece : List ℕ) → HasPiece piece was → at ≡ length piece + 1 → HasPiece (piece ++ bytes.now) now)) }
    ensures blank { Each (E.may_leave spare.old) IsBlank → Each (E.may_leave spare.new) IsBlank }
    ensures any_moment { Each (E.may_leave spare.old) IsBlank → LeavesOnly E.moment E.left_since spare.old spare.new IsBlank }
    ensures faults { Counts (E.faults spare.old) (E.faults spare.new) result }
{
    spare.write_at(at, bytes)
}

/// Writes so many 00 behind place 0.
fn put_zeros<E: Disk>(spare: &mut E, at: u64, size: usize) -> Result<(), Failed>
    requires behind { 1 ≤ at }
    requires few { size ≤ 4096 }
    requires fits { at + size ≤ 2 ^ 31 }
    requires within { IfSome (E.seen spare.old) (λ was. at ≤ length was) }
    ensures written { OnOk result (E.seen spare.new ≡ option_map (overwritten at (take size (replicate 4096 0))) (E.seen spare.old)) }
    ensures blank { Each (E.may_leave spare.old) IsBlank → Each (E.may_leave spare.new) IsBlank }
    ensures any_moment { Each (E.may_leave spare.old) IsBlank → LeavesOnly E.moment E.left_since spare.old spare.new IsBlank }
    ensures faults { Counts (E.faults spare.old) (E.faults spare.new) result }
{
    let zeros = [0u8; 4096];
    put(spare, at, &zeros[..size])
}

/// Writes 00 from a place on, up to the spare's end or the last place of a disk.
fn wipe<E: Disk>(spare: &mut E, from: u64, len: u64) -> Result<(), Failed>
    requires behind { 1 ≤ from }
    requires within { IfSome (E.seen spare.old) (λ was. from ≤ length was) }
    requires len { IfSome (E.seen spare.old) (λ was. len ≤ length was) }
    ensures wiped { OnOk result (BothTold (E.seen spare.old) (E.seen spare.new) (IsWiped from len)) }
    ensures blank { Each (E.may_leave spare.old) IsBlank → Each (E.may_leave spare.new) IsBlank }
    ensures any_moment { Each (E.may_leave spare.old) IsBlank → LeavesOnly E.moment E.left_since spare.old spare.new IsBlank }
    ensures faults { Counts (E.faults spare.old) (E.faults spare.new) result }
{
    let end = len.min(1 << 31);
    let mut at = from;
    while at < end {
        let size = (end - at).min(4096);
        put_zeros(spare, at, size as usize)?;
        at += size;
    }
    Ok(())
}

/// Writes 00 behind a base that ends at a place, and syncs: the spare is prepared.
pub fn finish<E: Disk>(spare: &mut E, end: u64, len: u64) -> Result<(), Failed>
    requires behind { 1 ≤ end }
    requires within { IfSome (E.seen spare.old) (λ was. end ≤ length was) }
    requires len { IfSome (E.seen spare.old) (λ was. len ≤ length was) }
    ensures prepared { OnOk result (BothTold (E.seen spare.old) (E.seen spare.new) (λ was now. Each (E.may_leave spare.new) (λ c. c ≡ now) × ((behind : List ℕ) → HasPiece behind was → end ≡ length behind + 1 → length was ≤ max len end → IsPrepared behind now))) }
    ensures blank { Each (E.may_leave spare.old) IsBlank → Each (E.may_leave spare.new) IsBlank }
    ensures any_moment { Each (E.may_leave spare.old) IsBlank → LeavesOnly E.moment E.left_since spare.old spare.new IsBlank }
    ensures faults { Counts (E.faults spare.old) (E.faults spare.new) result }
{
    wipe(spare, end, len)?;
    spare.sync()
}
