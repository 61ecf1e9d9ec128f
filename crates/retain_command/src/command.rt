//! The command.

ghost use Rattle.std.specs.Prelude.{◌≡◌, ◌≢◌, ◌⊎◌, List, ℕ, IfSome};
ghost use Rattle.avm_outside.specs.Moments.{LeavesOnly};
ghost use Rattle.avm_outside.specs.Outside.{Rises};
ghost use Rattle.base_model.specs.Spare.{IsFree, IsSafe};
ghost use Rattle.rebut_pass.specs.Reads.{OnlyReads};
ghost use Rattle.retain_command.specs.Meaning.{RetainMeans};
ghost use Rattle.retain_command.specs.Outcomes.{RetainEnds};
ghost use Rattle.spare_disk.specs.Activating.{Each};
ghost use Rattle.store_retain.specs.Retaining.{IsSpareImage, IsStoreImage, IsUnmarked, RetainsTogether};

use crate::finishing::refuse;
use crate::lines::retained_line;
use avm_outside::{Disk, Sink};
use command_parts::print_last;
use std::alloc::{AllocError, Global};
use store_move::RetainFault;

// Retains the store, and prints the line. The line of a store that is retained is made first: no memory is missed once a disk is called.
fn retain_store<D: Disk, E: Disk, S: Sink>(
    alloc: Global,
    disk: &mut D,
    at: u64,
    spare: &mut E,
    out: &mut S,
) -> u8
    ensures ends { RetainEnds at (record { was = D.seen disk.old; now = D.seen disk.new; images = D.may_leave disk.new }) (record { was = E.seen spare.old; now = E.seen spare.new; images = E.may_leave spare.new })
        (record { reads = OnlyReads D.seen D.may_leave D.moment D.left_since disk.old disk.new; quiet = spare.new ≡ spare.old; same = E.seen spare.new ≡ E.seen spare.old })
        (record { disk_before = D.faults disk.old; disk_now = D.faults disk.new; spare_before = E.faults spare.old; spare_now = E.faults spare.new; out_before = S.faults out.old; out_now = S.faults out.new })
        (S.written out.old) (S.written out.new) result }
    ensures together { IfSome (D.seen disk.old) (λ was. IfSome (E.seen spare.old) (λ other. ((c e : List ℕ) → D.may_leave disk.old c → E.may_leave spare.old e → IsSafe c e) → (IsUnmarked was → Each (E.may_leave spare.old) IsFree)
        → RetainsTogether D.moment D.left_since D.may_leave E.moment E.left_since E.may_leave disk.old disk.new spare.old spare.new IsSafe)) }
    ensures store { IfSome (D.seen disk.old) (λ was. LeavesOnly D.moment D.left_since disk.old disk.new (IsStoreImage at was (D.may_leave disk.old))) }
    ensures spare { IfSome (D.seen disk.old) (λ was. IfSome (E.seen spare.old) (λ other. (IsUnmarked was → Each (E.may_leave spare.old) IsFree) → LeavesOnly E.moment E.left_since spare.old spare.new (IsSpareImage at was (E.may_leave spare.old)))) }
{
    let line = match retained_line(alloc, at) {
        Ok(line) => line,
        Err(AllocError) => return refuse(alloc, RetainFault::NoMemory, out),
    };
    match store_retain::retain(alloc, disk, at, spare) {
        Ok(()) => print_last(out, line.as_bytes(), 0),
        Err(fault) => refuse(alloc, fault, out),
    }
}

/// Moves a store from SNAP entry `at` on to a base on the spare, and retires it. The status: 0 retained; 2 refused by content; 4 a fault of
/// the outside; 5 want of memory. At any moment at most one of the two disks opens for more.
pub fn retain<D: Disk, E: Disk, S: Sink>(
    alloc: Global,
    disk: &mut D,
    at: u64,
    spare: &mut E,
    out: &mut S,
) -> u8
    ensures ends { RetainEnds at (record { was = D.seen disk.old; now = D.seen disk.new; images = D.may_leave disk.new }) (record { was = E.seen spare.old; now = E.seen spare.new; images = E.may_leave spare.new })
        (record { reads = OnlyReads D.seen D.may_leave D.moment D.left_since disk.old disk.new; quiet = spare.new ≡ spare.old; same = E.seen spare.new ≡ E.seen spare.old })
        (record { disk_before = D.faults disk.old; disk_now = D.faults disk.new; spare_before = E.faults spare.old; spare_now = E.faults spare.new; out_before = S.faults out.old; out_now = S.faults out.new })
        (S.written out.old) (S.written out.new) result }
    ensures means { RetainMeans at (record { was = D.seen disk.old; now = D.seen disk.new; images = D.may_leave disk.new }) (record { was = E.seen spare.old; now = E.seen spare.new; images = E.may_leave spare.new }) result }
    ensures together { IfSome (D.seen disk.old) (λ was. IfSome (E.seen spare.old) (λ other. ((c e : List ℕ) → D.may_leave disk.old c → E.may_leave spare.old e → IsSafe c e) → (IsUnmarked was → Each (E.may_leave spare.old) IsFree)
        → RetainsTogether D.moment D.left_since D.may_leave E.moment E.left_since E.may_leave disk.old disk.new spare.old spare.new IsSafe)) }
    ensures store { IfSome (D.seen disk.old) (λ was. LeavesOnly D.moment D.left_since disk.old disk.new (IsStoreImage at was (D.may_leave disk.old))) }
    ensures spare { IfSome (D.seen disk.old) (λ was. IfSome (E.seen spare.old) (λ other. (IsUnmarked was → Each (E.may_leave spare.old) IsFree) → LeavesOnly E.moment E.left_since spare.old spare.new (IsSpareImage at was (E.may_leave spare.old)))) }
    ensures four { result ≡ 4 → Rises (D.faults disk.old) (D.faults disk.new) ⊎ (Rises (E.faults spare.old) (E.faults spare.new) ⊎ Rises (S.faults out.old) (S.faults out.new)) }
    ensures not_four { result ≢ 4 → (D.faults disk.new ≡ D.faults disk.old) × (E.faults spare.new ≡ E.faults spare.old) × (S.faults out.new ≡ S.faults out.old) }
{
    retain_store(alloc, disk, at, spare, out)
}
