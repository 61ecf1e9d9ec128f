// The command.
ghost use Rattle.std.specs.Prelude.{◌≡◌, ◌≢◌, ◌⊎◌, ◌∷◌, [], ℕ, List, OnOk, IsErrOf, codes};
ghost use Rattle.avm_model.specs.Keys.{HasTypes};
ghost use Rattle.avm_outside.specs.Outside.{Rises};
ghost use Rattle.command_parts.specs.FileMap.{SameFiles};
ghost use Rattle.command_parts.specs.Printing.{line, Printed};
ghost use Rattle.lms_signer.specs.Views.{key_data};
ghost use Rattle.keygen_command.specs.Keygen.{KeygenRuns, KeysMade, KeysCut, key_of_words};

use crate::fault::Fault;
use crate::writing::write_file;
use avm_hash::Digest;
use avm_num::Room;
use avm_outside::{Files, Sink};
use command_parts::print_last;
use lms_signer::{KeyFile, Signer, put_key};
use std::alloc::Global;

/// The private key that the words name.
pub fn key_of(height: u32, w: u32, id: [u8; 16], seed: [u8; 32]) -> KeyFile
    ensures value { key_data result ≡ key_of_words height w id seed }
    ensures types { HasTypes (key_data result) }
{
    let lms = match height {
        5 => 5,
        10 => 6,
        _ => 7,
    };
    let ots = match w {
        1 => 1,
        2 => 2,
        4 => 3,
        _ => 4,
    };
    KeyFile {
        lms,
        ots,
        id,
        seed: Digest(seed),
    }
}

// Writes the private key's file, and then the public key's; after a failed call the later ones aren't made.
#[tactic(auto, unfolding(avm_num::specs::Room::left, avm_num::specs::Room::with_bytes))]
fn make<F: Files>(
    alloc: Global,
    files: &mut F,
    key: KeyFile,
    private_name: &str,
    public_name: &str,
) -> Result<(), Fault>
    requires types { HasTypes (key_data key) }
    requires apart { private_name.now ≢ public_name.now }
    ensures made { OnOk result (KeysMade (key_data key) private_name.now public_name.now (F.file files.old) (F.file files.new)) }
    ensures left { IsErrOf result Fault.Files → KeysCut (key_data key) private_name.now public_name.now (F.file files.old) (F.file files.new) }
    ensures no_memory { IsErrOf result Fault.NoMemory → SameFiles (F.file files.old) (F.file files.new) }
    ensures others { (n : List ℕ) → n ≢ private_name.now → n ≢ public_name.now → F.file files.new n ≡ F.file files.old n }
    ensures fault { IsErrOf result Fault.Files → Rises (F.faults files.old) (F.faults files.new) }
    ensures no_fault { result ≢ Err Fault.Files → F.faults files.new ≡ F.faults files.old }
{
    let mut private = Room::new(alloc, 61)?;
    put_key(&mut private, &key);
    let public = Signer::new(alloc, key)?.public();
    write_file(files, private_name, private.bytes())?;
    write_file(files, public_name, &public)?;
    Ok(())
}

// Prints the line, and gives the status, or 4 where that fails.
fn print_made<S: Sink>(made: Result<(), Fault>, out: &mut S) -> u8
    ensures made { OnOk made (Printed (line (codes "key made") ∷ []) 0 (S.faults out.old) (S.faults out.new) (S.written out.old) (S.written out.new) result) }
    ensures memory { IsErrOf made Fault.NoMemory → Printed (line (codes "no memory") ∷ []) 5 (S.faults out.old) (S.faults out.new) (S.written out.old) (S.written out.new) result }
    ensures files { IsErrOf made Fault.Files → Printed (line (codes "fault files") ∷ []) 4 (S.faults out.old) (S.faults out.new) (S.written out.old) (S.written out.new) result }
{
    match made {
        Ok(()) => print_last(out, b"key made\n", 0),
        Err(Fault::NoMemory) => print_last(out, b"no memory\n", 5),
        Err(Fault::Files) => print_last(out, b"fault files\n", 4),
    }
}

// Makes the files, and prints the line.
fn make_printed<F: Files, S: Sink>(
    alloc: Global,
    files: &mut F,
    key: KeyFile,
    private_name: &str,
    public_name: &str,
    out: &mut S,
) -> u8
    requires types { HasTypes (key_data key) }
    requires apart { private_name.now ≢ public_name.now }
    ensures ends { KeygenRuns (key_data key) private_name.now public_name.now (F.file files.old) (F.file files.new) (F.faults files.old) (F.faults files.new) (S.faults out.old) (S.faults out.new) (S.written out.old) (S.written out.new) result }
    ensures files { (n : List ℕ) → n ≢ private_name.now → n ≢ public_name.now → F.file files.new n ≡ F.file files.old n }
{
    let made = make(alloc, files, key, private_name, public_name);
    print_made(made, out)
}

/// Writes the private key's file, and then the public key's, each by one create and one append; after a failed call the
/// later ones aren't made. Memory is taken before the first. The status: 0 made; 4 a fault of the outside; 5 want of memory.
pub fn keygen<F: Files, S: Sink>(
    alloc: Global,
    files: &mut F,
    key: KeyFile,
    private_name: &str,
    public_name: &str,
    out: &mut S,
) -> u8
    requires types { HasTypes (key_data key) }
    requires apart { private_name.now ≢ public_name.now }
    ensures ends { KeygenRuns (key_data key) private_name.now public_name.now (F.file files.old) (F.file files.new) (F.faults files.old) (F.faults files.new) (S.faults out.old) (S.faults out.new) (S.written out.old) (S.written out.new) result }
    ensures files { (n : List ℕ) → n ≢ private_name.now → n ≢ public_name.now → F.file files.new n ≡ F.file files.old n }
    ensures four { result ≡ 4 → Rises (F.faults files.old) (F.faults files.new) ⊎ Rises (S.faults out.old) (S.faults out.new) }
    ensures not_four { result ≢ 4 → (F.faults files.new ≡ F.faults files.old) × (S.faults out.new ≡ S.faults out.old) }
{
    make_printed(alloc, files, key, private_name, public_name, out)
}
