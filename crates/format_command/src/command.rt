//! The command.

ghost use Rattle.std.specs.Prelude.{◌≡◌, ◌≢◌, ◌⊎◌, ℕ, List};
ghost use Rattle.avm_outside.specs.Outside.{Rises};
ghost use Rattle.format_command.specs.Meaning.{FormatMeans};
ghost use Rattle.format_command.specs.Outcomes.{FormatEnds};

use crate::End;
use crate::finishing::finish;
use crate::first::make_store;
use crate::inputs::read_start;
use avm_outside::{Disk, Files, Sink};
use std::alloc::Global;

// Reads the files, makes the store, and prints the line.
fn format_all<F: Files, D: Disk, S: Sink>(
    alloc: Global,
    files: &mut F,
    key: &str,
    config: &str,
    image: &str,
    disk: &mut D,
    out: &mut S,
) -> u8
    ensures ends { FormatEnds (record { key = key.now; config = config.now; image = image.now }) (F.file files.old) (D.seen disk.old) (D.seen disk.new) (D.may_leave disk.new) (disk.new ≡ disk.old)
        (record { files_before = F.faults files.old; files_now = F.faults files.new; disk_before = D.faults disk.old; disk_now = D.faults disk.new; out_before = S.faults out.old; out_now = S.faults out.new })
        (S.written out.old) (S.written out.new) result }
    ensures files { (n : List ℕ) → F.file files.new n ≡ F.file files.old n }
{
    match read_start(alloc, files, key, config, image) {
        Ok(Ok(start)) => {
            let made = make_store(alloc, disk, &start);
            finish(made, out)
        }
        Ok(Err(option)) => finish(Ok(End::RefusedFile(option)), out),
        Err(fault) => finish(Err(fault), out),
    }
}

/// Makes the store of a machine that boots: its configuration and image give the state, and the private key its public key. The
/// disk is to be empty. The status: 0 made; 2 refused by content; 3 an input file refused; 4 a fault of the outside; 5 want of
/// memory.
pub fn format<F: Files, D: Disk, S: Sink>(
    alloc: Global,
    files: &mut F,
    key: &str,
    config: &str,
    image: &str,
    disk: &mut D,
    out: &mut S,
) -> u8
    ensures ends { FormatEnds (record { key = key.now; config = config.now; image = image.now }) (F.file files.old) (D.seen disk.old) (D.seen disk.new) (D.may_leave disk.new) (disk.new ≡ disk.old)
        (record { files_before = F.faults files.old; files_now = F.faults files.new; disk_before = D.faults disk.old; disk_now = D.faults disk.new; out_before = S.faults out.old; out_now = S.faults out.new })
        (S.written out.old) (S.written out.new) result }
    ensures means { FormatMeans (record { key = key.now; config = config.now; image = image.now }) (F.file files.old) (D.seen disk.old) (D.seen disk.new) (D.may_leave disk.new) result }
    ensures four { result ≡ 4 → Rises (F.faults files.old) (F.faults files.new) ⊎ (Rises (D.faults disk.old) (D.faults disk.new) ⊎ Rises (S.faults out.old) (S.faults out.new)) }
    ensures not_four { result ≢ 4 → (F.faults files.new ≡ F.faults files.old) × (D.faults disk.new ≡ D.faults disk.old) × (S.faults out.new ≡ S.faults out.old) }
    ensures files { (n : List ℕ) → F.file files.new n ≡ F.file files.old n }
{
    format_all(alloc, files, key, config, image, disk, out)
}
