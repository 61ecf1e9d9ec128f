// Reads a public key's file.
ghost use Rattle.std.specs.Prelude.{◌≡◌, ◌≢◌, ℕ, List, IfOk, IsErrOf, option_map, length};
ghost use Rattle.avm_outside.specs.Outside.{Rises};
ghost use Rattle.avm_model.specs.Keys.{public_file};
ghost use Rattle.command_parts.specs.Tested.{IsTested, IsTestedRead};

use avm_outside::Files;
use file_audit::{Fault, read_whole};
use lms_tree::is_public_key;
use std::alloc::Global;

const PUBLIC_KEY: usize = 56;

// The 56 bytes as an array.
fn array_of(bytes: &[u8]) -> [u8; 56]
    requires { length bytes.now ≡ 56 }
    ensures { result ≡ bytes.now }
{
    let mut key = [0; 56];
    key.copy_from_slice(bytes);
    key
}

// The key that the bytes are.
#[tactic(auto, unfolding(avm_model::specs::Keys::public_file))]
fn public_key(bytes: &[u8]) -> Option<[u8; 56]>
    ensures { IsTested public_file (Some bytes.now) (option_map (λ k. k) result) }
{
    if !is_public_key(bytes) {
        return None;
    }
    Some(array_of(bytes))
}

/// The public key in a file; None where the file isn't there or is no public key.
pub fn read_public_key<F: Files>(
    alloc: Global,
    files: &mut F,
    name: &str,
) -> Result<Option<[u8; 56]>, Fault>
    ensures key { IfOk result (λ k. IsTestedRead public_file (F.file files.old name.now) (option_map (λ k. k) k)) }
    ensures same { (n : List ℕ) → F.file files.new n ≡ F.file files.old n }
    ensures fault { IsErrOf result Fault.Files → Rises (F.faults files.old) (F.faults files.new) }
    ensures no_fault { result ≢ Err Fault.Files → F.faults files.new ≡ F.faults files.old }
{
    match read_whole(alloc, files, name, PUBLIC_KEY)? {
        Some(bytes) => Ok(public_key(&bytes)),
        None => Ok(None),
    }
}
