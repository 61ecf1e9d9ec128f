// A file that is written in pieces.
ghost use Rattle.std.specs.Prelude.{◌≡◌, ◌≢◌, ℕ, List};
ghost use Rattle.avm_outside.specs.Outside.{Counts};
ghost use Rattle.evid_file.specs.Pieces.{joined, Leaves};

use avm_outside::{Failed, Files};

/// Makes the file of a name, with the pieces one after another and nothing else.
pub fn write_all<F: Files>(files: &mut F, name: &str, pieces: &[&[u8]]) -> Result<(), Failed>
    ensures leaves { Leaves result (joined pieces.now) (F.file files.old name.now) (F.file files.new name.now) }
    ensures others { (n : List ℕ) → n ≢ name.now → F.file files.new n ≡ F.file files.old n }
    ensures faults { Counts (F.faults files.old) (F.faults files.new) result }
{
    files.create(name)?;
    let mut left = pieces;
    while let [piece, others @ ..] = left {
        files.append(name, piece)?;
        left = others;
    }
    Ok(())
}
