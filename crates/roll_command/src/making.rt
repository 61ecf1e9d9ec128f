//! The command that makes a roll.

ghost use Rattle.std.specs.Prelude.{◌≡◌, ◌≢◌, ◌⊎◌, ℕ, List, IfOk, IsErrOf};
ghost use Rattle.avm_outside.specs.Outside.{Rises};
ghost use Rattle.hss_command.specs.Said.{IsSaid};
ghost use Rattle.roll_command.specs.Roll.{RollEnd, RollEnds, RollMeans};

use crate::inputs::{hss_key_of, read_private_key, top_key};
use avm_outside::{Disk, Files, Sink};
use command_parts::Fault;
use hss_command::{End, FileOption, Said, finish, say};
use lms_hss::{Roll, RollFault};
use std::alloc::Global;

// Reads the key, and makes its roll. Memory is taken before the disk is looked at.
fn made<F: Files, D: Disk>(
    alloc: Global,
    files: &mut F,
    disk: &mut D,
    key: &str,
) -> Result<Said, Fault>
    ensures ends { IfOk result (λ s. RollEnd (F.file files.old key.now) (D.seen disk.old) (D.seen disk.new) (D.may_leave disk.new) (disk.new ≡ disk.old) s.end) }
    ensures line { IfOk result IsSaid }
    ensures no_memory { IsErrOf result Fault.NoMemory → disk.new ≡ disk.old }
    ensures unread { IsErrOf result Fault.Files → disk.new ≡ disk.old }
    ensures same { (n : List ℕ) → F.file files.new n ≡ F.file files.old n }
    ensures fault { IsErrOf result Fault.Files → Rises (F.faults files.old) (F.faults files.new) }
    ensures no_fault { result ≢ Err Fault.Files → F.faults files.new ≡ F.faults files.old }
    ensures disk_fault { IsErrOf result Fault.Disk → Rises (D.faults disk.old) (D.faults disk.new) }
    ensures no_disk_fault { result ≢ Err Fault.Disk → D.faults disk.new ≡ D.faults disk.old }
    ensures sink { result ≢ Err Fault.Sink }
{
    let Some(file) = read_private_key(alloc, files, key)? else {
        return say(alloc, End::RefusedFile(FileOption::Key));
    };
    let top = top_key(alloc, &file)?;
    let done = say(alloc, End::RollMade)?;
    let refused = say(alloc, End::RefusedNotEmpty)?;
    match Roll::make(disk, &hss_key_of(&top)) {
        Ok(_roll) => Ok(done),
        Err(RollFault::DiskFault) => Err(Fault::Disk),
        Err(_) => Ok(refused),
    }
}

/// Makes a roll without bottom keys for a private key's file. The status: 0 done; 2 there is something on the disk; 3 the key's
/// file refused; 4 a fault of the outside; 5 want of memory.
pub fn roll<F: Files, D: Disk, S: Sink>(
    alloc: Global,
    files: &mut F,
    disk: &mut D,
    key: &str,
    out: &mut S,
) -> u8
    ensures ends { RollEnds (F.file files.old key.now) (D.seen disk.old) (D.seen disk.new) (D.may_leave disk.new) (disk.new ≡ disk.old)
        (record { files_before = F.faults files.old; files_now = F.faults files.new; disk_before = D.faults disk.old; disk_now = D.faults disk.new; out_before = S.faults out.old; out_now = S.faults out.new })
        (S.written out.old) (S.written out.new) result }
    ensures means { RollMeans (F.file files.old key.now) (D.seen disk.old) (D.seen disk.new) (D.may_leave disk.new) result }
    ensures files { (n : List ℕ) → F.file files.new n ≡ F.file files.old n }
    ensures four { result ≡ 4 → Rises (F.faults files.old) (F.faults files.new) ⊎ (Rises (D.faults disk.old) (D.faults disk.new) ⊎ Rises (S.faults out.old) (S.faults out.new)) }
    ensures not_four { result ≢ 4 → (F.faults files.new ≡ F.faults files.old) × (D.faults disk.new ≡ D.faults disk.old) × (S.faults out.new ≡ S.faults out.old) }
{
    let ended = made(alloc, files, disk, key);
    finish(ended, out)
}
