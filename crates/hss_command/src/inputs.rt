// Reads a public key's file.
ghost use Rattle.std.specs.Prelude.{◌≡◌, ◌≢◌, ℕ, List, IfOk, IfErr, IfSome, IsErrOf, option_map, length, true};
ghost use Rattle.avm_outside.specs.Outside.{Rises};
ghost use Rattle.avm_model.specs.Keys.{public_file};
ghost use Rattle.command_parts.specs.Reading.{IsOfReading};
ghost use Rattle.hss_command.specs.Inputs.{IsInput, public_key_in};

use avm_outside::Files;
use command_parts::{Fault, read_file};
use lms_tree::is_public_key;
use std::alloc::Global;

// The 56 bytes as an array.
fn array_of(bytes: &[u8]) -> [u8; 56]
    requires { length bytes.now ≡ 56 }
    ensures { result ≡ bytes.now }
{
    let mut key = [0; 56];
    key.copy_from_slice(bytes);
    key
}

// The key that the bytes are.
#[tactic(auto, unfolding(avm_model::specs::Keys::public_file))]
fn public_key(bytes: &[u8]) -> Option<[u8; 56]>
    ensures key { option_map (λ k. k) result ≡ public_key_in bytes.now }
    ensures fits { IfSome result (λ k. public_file k ≡ true) }
{
    if !is_public_key(bytes) {
        return None;
    }
    Some(array_of(bytes))
}

/// The public key in a file; None where the file isn't there or is no public key.
pub fn read_public_key<F: Files>(
    alloc: Global,
    files: &mut F,
    name: &str,
) -> Result<Option<[u8; 56]>, Fault>
    ensures key { IfOk result (λ k. IsInput public_key_in (F.file files.old name.now) (option_map (λ k. k) k)) }
    ensures fits { IfOk result (λ o. IfSome o (λ k. public_file k ≡ true)) }
    ensures same { (n : List ℕ) → F.file files.new n ≡ F.file files.old n }
    ensures fault { IsErrOf result Fault.Files → Rises (F.faults files.old) (F.faults files.new) }
    ensures no_fault { result ≢ Err Fault.Files → F.faults files.new ≡ F.faults files.old }
    ensures causes { IfErr result IsOfReading }
{
    match read_file(alloc, files, name, 56)? {
        Some(bytes) => Ok(public_key(&bytes)),
        None => Ok(None),
    }
}
