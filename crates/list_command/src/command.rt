//! The command.

ghost use Rattle.std.specs.Prelude.{◌≡◌, ◌≢◌, ◌⊎◌, ◌≤◌, ℕ, List};
ghost use Rattle.avm_outside.specs.Outside.{Rises};
ghost use Rattle.list_command.specs.Meaning.{ListMeans};
ghost use Rattle.list_command.specs.Outcomes.{ListEnds};

use crate::finishing::finish;
use crate::store::list_store;
use avm_outside::{Disk, Sink};
use std::alloc::Global;

// Lists the store, and prints the last line, where there is one.
fn list_all<D: Disk, S: Sink>(alloc: Global, disk: &mut D, out: &mut S) -> u8
    ensures ends { ListEnds (D.seen disk.old) (D.faults disk.old) (D.faults disk.new) (S.faults out.old) (S.faults out.new) (S.written out.old) (S.written out.new) result }
    ensures same { D.seen disk.new ≡ D.seen disk.old }
    ensures crash { (c : List ℕ) → D.may_leave disk.new c → D.may_leave disk.old c }
    ensures later { D.moment disk.old ≤ D.moment disk.new }
    ensures moments { (t : ℕ) (c : List ℕ) → t ≤ D.moment disk.old → D.left_since disk.new t c → D.left_since disk.old t c }
{
    let ended = list_store(alloc, disk, out);
    finish(alloc, ended, out)
}

/// Prints the journal of a store, and changes no byte of it. The status: 0 listed; 2 refused by content; 4 a fault of the outside; 5 want of
/// memory.
pub fn list<D: Disk, S: Sink>(alloc: Global, disk: &mut D, out: &mut S) -> u8
    ensures ends { ListEnds (D.seen disk.old) (D.faults disk.old) (D.faults disk.new) (S.faults out.old) (S.faults out.new) (S.written out.old) (S.written out.new) result }
    ensures means { ListMeans (D.seen disk.old) (S.written out.old) (S.written out.new) result }
    ensures four { result ≡ 4 → Rises (D.faults disk.old) (D.faults disk.new) ⊎ Rises (S.faults out.old) (S.faults out.new) }
    ensures not_four { result ≢ 4 → (D.faults disk.new ≡ D.faults disk.old) × (S.faults out.new ≡ S.faults out.old) }
    ensures same { D.seen disk.new ≡ D.seen disk.old }
    ensures crash { (c : List ℕ) → D.may_leave disk.new c → D.may_leave disk.old c }
    ensures later { D.moment disk.old ≤ D.moment disk.new }
    ensures moments { (t : ℕ) (c : List ℕ) → t ≤ D.moment disk.old → D.left_since disk.new t c → D.left_since disk.old t c }
{
    list_all(alloc, disk, out)
}
