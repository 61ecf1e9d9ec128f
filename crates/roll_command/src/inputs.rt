// The private key of a roll.
ghost use Rattle.std.specs.Prelude.{◌≡◌, ◌≢◌, ℕ, List, IfOk, IfErr, IfSome, IsErrOf, option_map, true};
ghost use Rattle.avm_outside.specs.Outside.{Rises};
ghost use Rattle.avm_model.specs.Keys.{KeyData, HasTypes, FitsKey, key_file, public_of};
ghost use Rattle.hss_model.specs.Hss.{hss_key, is_hss_key};
ghost use Rattle.lms_signer.specs.Views.{key_data};
ghost use Rattle.command_parts.specs.Reading.{IsOfReading};
ghost use Rattle.hss_command.specs.Inputs.{IsInput};

use avm_num::NoMemory;
use avm_outside::Files;
use command_parts::{Fault, read_file};
use lms_signer::{KeyFile, read_key};
use lms_tree::LmsKey;
use std::alloc::Global;

/// The private key in a file; None where the file isn't there or is no private key.
pub fn read_private_key<F: Files>(
    alloc: Global,
    files: &mut F,
    name: &str,
) -> Result<Option<KeyFile>, Fault>
    ensures key { IfOk result (λ k. IsInput key_file (F.file files.old name.now) (option_map key_data k)) }
    ensures fits { IfOk result (λ o. IfSome o (λ k. FitsKey (key_data k))) }
    ensures same { (n : List ℕ) → F.file files.new n ≡ F.file files.old n }
    ensures fault { IsErrOf result Fault.Files → Rises (F.faults files.old) (F.faults files.new) }
    ensures no_fault { result ≢ Err Fault.Files → F.faults files.new ≡ F.faults files.old }
    ensures causes { IfErr result IsOfReading }
{
    match read_file(alloc, files, name, 61)? {
        Some(bytes) => Ok(read_key(&bytes)),
        None => Ok(None),
    }
}

/// The top key with its tree.
pub fn top_key(alloc: Global, file: &KeyFile) -> Result<LmsKey, NoMemory>
    requires { HasTypes (key_data file.now) }
    ensures { IfOk result (λ k. k ≡ key_data file.now) }
{
    match LmsKey::make(alloc, file.lms, file.ots, file.id, file.seed) {
        Ok(key) => Ok(key),
        Err(_) => Err(NoMemory),
    }
}

/// The HSS key of a top key.
#[tactic(auto, unfolding(avm_num::specs::Lists::be))]
pub fn hss_key_of(top: &LmsKey) -> [u8; 60]
    ensures { result ≡ hss_key (public_of top.now) }
{
    let mut key = [0u8; 60];
    key[..4].copy_from_slice(&[0, 0, 0, 2]);
    key[4..].copy_from_slice(&top.public());
    key
}
