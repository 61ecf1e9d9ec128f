//! The command.

ghost use Rattle.std.specs.Prelude.{◌≡◌, ◌≢◌, ◌⊎◌, ◌≤◌, ℕ, List, IfSome};
ghost use Rattle.avm_outside.specs.Outside.{Rises};
ghost use Rattle.record_command.specs.Meaning.{RecordMeans, StandsFrom};
ghost use Rattle.record_command.specs.Names.{record_names};
ghost use Rattle.record_command.specs.Outcomes.{RecordEnds};

use crate::End;
use crate::finishing::finish;
use crate::inputs::read_start;
use crate::recording::record_script;
use crate::running::RunNames;
use avm_outside::{Disk, Files, Sink};
use std::alloc::Global;

/// The names of the files of a recording.
#[derive(Clone, Copy)]
pub struct RecordNames<'a> {
    /// The private key, which is read first.
    pub key: &'a str,
    /// The script, which is read next.
    pub script: &'a str,
    /// Each packet that is released is appended here, behind its peer and its length.
    pub packets: &'a str,
    /// What the machine writes is appended here.
    pub console: &'a str,
    /// The authenticators of seals are appended here.
    pub auths: &'a str,
}

// Reads the files, records the script, and prints the last line.
fn record_all<F: Files, D: Disk, S: Sink>(
    alloc: Global,
    files: &mut F,
    disk: &mut D,
    names: RecordNames<'_>,
    out: &mut S,
) -> u8
    ensures ends { RecordEnds (record_names names.entry) (F.file files.old) (F.file files.new) (D.seen disk.old) (D.seen disk.new) (D.may_leave disk.new) (disk.new ≡ disk.old)
        (record { files_before = F.faults files.old; files_now = F.faults files.new; disk_before = D.faults disk.old; disk_now = D.faults disk.new; out_before = S.faults out.old; out_now = S.faults out.new })
        (S.written out.old) (S.written out.new) result }
    ensures files { (n : List ℕ) → n ≢ names.entry.packets.now → n ≢ names.entry.console.now → n ≢ names.entry.auths.now → F.file files.new n ≡ F.file files.old n }
    ensures moments { IfSome (D.seen disk.old) (λ was. (t : ℕ) (c : List ℕ) → t ≤ D.moment disk.old → D.left_since disk.new t c → D.left_since disk.old t c ⊎ StandsFrom (record_names names.entry) (F.file files.old) was c) }
{
    match read_start(alloc, files, names.key, names.script) {
        Ok(Ok(start)) => {
            let runs = RunNames {
                packets: names.packets,
                console: names.console,
                auths: names.auths,
            };
            let ended = record_script(alloc, start, disk, files, runs, out);
            finish(ended, out)
        }
        Ok(Err(option)) => finish(Ok(End::RefusedFile(option)), out),
        Err(fault) => finish(Err(fault), out),
    }
}

/// Records a script on the store of a private key: runs it to its end, appends what is released to the files, prints a line for
/// each event that is dropped, and seals. The status: 0 recorded; 2 refused by the store: none, damaged, moved to another store,
/// of another key, with an entry that doesn't replay, without a leaf that is left, or full; 3 a file refused, the key's before the
/// script's; 4 a fault of the outside; 5 want of memory, which comes only before the script's first event.
pub fn record<F: Files, D: Disk, S: Sink>(
    alloc: Global,
    files: &mut F,
    disk: &mut D,
    names: RecordNames<'_>,
    out: &mut S,
) -> u8
    ensures ends { RecordEnds (record_names names.entry) (F.file files.old) (F.file files.new) (D.seen disk.old) (D.seen disk.new) (D.may_leave disk.new) (disk.new ≡ disk.old)
        (record { files_before = F.faults files.old; files_now = F.faults files.new; disk_before = D.faults disk.old; disk_now = D.faults disk.new; out_before = S.faults out.old; out_now = S.faults out.new })
        (S.written out.old) (S.written out.new) result }
    ensures means { RecordMeans (record_names names.entry) (F.file files.old) (F.file files.new) (D.seen disk.old) (D.seen disk.new) (D.may_leave disk.new) (S.written out.old) (S.written out.new) result }
    ensures four { result ≡ 4 → Rises (F.faults files.old) (F.faults files.new) ⊎ (Rises (D.faults disk.old) (D.faults disk.new) ⊎ Rises (S.faults out.old) (S.faults out.new)) }
    ensures not_four { result ≢ 4 → (F.faults files.new ≡ F.faults files.old) × (D.faults disk.new ≡ D.faults disk.old) × (S.faults out.new ≡ S.faults out.old) }
    ensures files { (n : List ℕ) → n ≢ names.entry.packets.now → n ≢ names.entry.console.now → n ≢ names.entry.auths.now → F.file files.new n ≡ F.file files.old n }
    ensures moments { IfSome (D.seen disk.old) (λ was. (t : ℕ) (c : List ℕ) → t ≤ D.moment disk.old → D.left_since disk.new t c → D.left_since disk.old t c ⊎ StandsFrom (record_names names.entry) (F.file files.old) was c) }
{
    record_all(alloc, files, disk, names, out)
}
