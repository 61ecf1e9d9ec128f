// Writes a file whole.
ghost use Rattle.std.specs.Prelude.{◌≡◌, ◌≢◌, ℕ, List, OnOk, OnErr};
ghost use Rattle.avm_outside.specs.Outside.{Counts};
ghost use Rattle.evid_file.specs.Pieces.{Written, LeavesFront};

use avm_outside::{Failed, Files};

/// Makes the file of a name hold these bytes, by one create and one append. Where a call fails the file is as it was, or
/// holds a front of the bytes.
pub fn write_file<F: Files>(files: &mut F, name: &str, bytes: &[u8]) -> Result<(), Failed>
    ensures written { OnOk result (Written bytes.now (F.file files.old name.now) (F.file files.new name.now)) }
    ensures failed { OnErr result (LeavesFront bytes.now (F.file files.old name.now) (F.file files.new name.now)) }
    ensures others { (n : List ℕ) → n ≢ name.now → F.file files.new n ≡ F.file files.old n }
    ensures faults { Counts (F.faults files.old) (F.faults files.new) result }
{
    files.create(name)?;
    files.append(name, bytes)
}
