//! The command.

ghost use Rattle.std.specs.Prelude.{◌≡◌, ◌≢◌, ◌⊎◌, ◌≤◌, ℕ, List};
ghost use Rattle.avm_outside.specs.Outside.{Rises};
ghost use Rattle.export_command.specs.Meaning.{ExportMeans};
ghost use Rattle.export_command.specs.Outcomes.{ExportEnds, asked};
ghost use Rattle.rebut_pass.specs.Reads.{OnlyReads};

use crate::finishing::refuse;
use crate::lines::exported_line;
use avm_outside::{Disk, Files, Sink};
use command_parts::print_last;
use journal_export::ExportFault;
use std::alloc::{AllocError, Global};

// Exports the entries, and prints the line. The line of an export that is done is made first: no memory is missed once the file is made.
fn export_entries<F: Files, D: Disk, S: Sink>(
    alloc: Global,
    files: &mut F,
    disk: &mut D,
    from: u64,
    to: u64,
    segment: &str,
    out: &mut S,
) -> u8
    ensures ends { ExportEnds (asked from to segment.now) (F.file files.old) (F.file files.new) (D.seen disk.old)
        (record { files_before = F.faults files.old; files_now = F.faults files.new; disk_before = D.faults disk.old; disk_now = D.faults disk.new; out_before = S.faults out.old; out_now = S.faults out.new })
        (S.written out.old) (S.written out.new) result }
    ensures files { (n : List ℕ) → n ≢ segment.now → F.file files.new n ≡ F.file files.old n }
    ensures reads { OnlyReads D.seen D.may_leave D.moment D.left_since disk.old disk.new }
{
    let line = match exported_line(alloc, from, to) {
        Ok(line) => line,
        Err(AllocError) => return refuse(alloc, ExportFault::NoMemory, out),
    };
    match journal_export::export(alloc, disk, from, to, files, segment) {
        Ok(()) => print_last(out, line.as_bytes(), 0),
        Err(fault) => refuse(alloc, fault, out),
    }
}

/// Writes the entries `from` to `to` of the store's journal as the file of a segment, with the state at the first of them, and changes
/// no byte of the store. The status: 0 exported; 2 refused by content; 4 a fault of the outside; 5 want of memory.
pub fn export<F: Files, D: Disk, S: Sink>(
    alloc: Global,
    files: &mut F,
    disk: &mut D,
    from: u64,
    to: u64,
    segment: &str,
    out: &mut S,
) -> u8
    ensures ends { ExportEnds (asked from to segment.now) (F.file files.old) (F.file files.new) (D.seen disk.old)
        (record { files_before = F.faults files.old; files_now = F.faults files.new; disk_before = D.faults disk.old; disk_now = D.faults disk.new; out_before = S.faults out.old; out_now = S.faults out.new })
        (S.written out.old) (S.written out.new) result }
    ensures means { ExportMeans (asked from to segment.now) (D.seen disk.old) (F.file files.old) (F.file files.new) result }
    ensures files { (n : List ℕ) → n ≢ segment.now → F.file files.new n ≡ F.file files.old n }
    ensures same { D.seen disk.new ≡ D.seen disk.old }
    ensures crash { (c : List ℕ) → D.may_leave disk.new c → D.may_leave disk.old c }
    ensures later { D.moment disk.old ≤ D.moment disk.new }
    ensures moments { (t : ℕ) (c : List ℕ) → t ≤ D.moment disk.old → D.left_since disk.new t c → D.left_since disk.old t c }
    ensures four { result ≡ 4 → Rises (F.faults files.old) (F.faults files.new) ⊎ (Rises (D.faults disk.old) (D.faults disk.new) ⊎ Rises (S.faults out.old) (S.faults out.new)) }
    ensures not_four { result ≢ 4 → (F.faults files.new ≡ F.faults files.old) × (D.faults disk.new ≡ D.faults disk.old) × (S.faults out.new ≡ S.faults out.old) }
{
    export_entries(alloc, files, disk, from, to, segment, out)
}
