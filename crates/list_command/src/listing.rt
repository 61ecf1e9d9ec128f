// The items of a journal, printed record by record.
ghost use Rattle.std.specs.Prelude.{◌≡◌, ◌≤◌, ℕ, List};
ghost use Rattle.jrnl_store.specs.Kept.{kept};
ghost use Rattle.list_command.specs.Listing.{PrintsOf, CountsDisk, all_items};

use crate::printing::print_record;
use avm_outside::{Disk, Sink};
use command_parts::Fault;
use jrnl_store::Journal;
use std::alloc::Global;

/// Prints a line for each item of a journal.
pub fn print_items<D: Disk, S: Sink>(
    alloc: Global,
    journal: &mut Journal,
    disk: &mut D,
    out: &mut S,
) -> Result<(), Fault>
    ensures lines { PrintsOf all_items (kept journal.old) (D.seen disk.old) result (S.faults out.old) (S.faults out.new) (S.written out.old) (S.written out.new) }
    ensures kept { kept journal.new ≡ kept journal.old }
    ensures same { D.seen disk.new ≡ D.seen disk.old }
    ensures crash { (c : List ℕ) → D.may_leave disk.new c → D.may_leave disk.old c }
    ensures later { D.moment disk.old ≤ D.moment disk.new }
    ensures moments { (t : ℕ) (c : List ℕ) → t ≤ D.moment disk.old → D.left_since disk.new t c → D.left_since disk.old t c }
    ensures faults { CountsDisk (D.faults disk.old) (D.faults disk.new) result }
{
    let mut cursor = journal.start();
    loop {
        let held = match journal.advance(disk, &mut cursor) {
            Ok(Some(held)) => held,
            Ok(None) => return Ok(()),
            Err(_) => return Err(Fault::Disk),
        };
        if let Err(fault) = print_record(alloc, journal.items(held), out) {
            return Err(fault);
        }
    }
}
