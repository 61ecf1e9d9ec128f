// Writes a file whole.
ghost use Rattle.std.specs.Prelude.{◌≡◌, ◌≢◌, ℕ, List, OnOk, OnErr, IfErr};
ghost use Rattle.avm_outside.specs.Outside.{Rises};
ghost use Rattle.evid_file.specs.Pieces.{Written, LeavesFront};

use avm_outside::{Failed, Files};
use command_parts::Fault;

/// Makes the file of a name hold these bytes. Where a call fails the file is as it was, or holds a front of the bytes.
pub fn write_file<F: Files>(files: &mut F, name: &str, bytes: &[u8]) -> Result<(), Fault>
    ensures written { OnOk result (Written bytes.now (F.file files.old name.now) (F.file files.new name.now)) }
    ensures failed { OnErr result (LeavesFront bytes.now (F.file files.old name.now) (F.file files.new name.now)) }
    ensures others { (n : List ℕ) → n ≢ name.now → F.file files.new n ≡ F.file files.old n }
    ensures same { OnOk result (F.faults files.new ≡ F.faults files.old) }
    ensures rises { OnErr result (Rises (F.faults files.old) (F.faults files.new)) }
    ensures cause { IfErr result (λ e. e ≡ Fault.Files) }
{
    let Ok(()) = files.create(name) else {
        return Err(Fault::Files);
    };
    let Ok(()) = files.append(name, bytes) else {
        return Err(Fault::Files);
    };
    Ok(())
}
