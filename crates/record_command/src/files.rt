// The files of a private key and of a script.
ghost use Rattle.std.specs.Prelude.{◌≡◌, ◌≢◌, ℕ, List, IfOk, IfErr, IfSome, IsErrOf, option_map};
ghost use Rattle.avm_model.specs.Keys.{HasTypes, key_file};
ghost use Rattle.avm_outside.specs.Outside.{Rises};
ghost use Rattle.command_parts.specs.Reading.{IsOfReading};
ghost use Rattle.format_command.specs.FileOf.{IsKeyRead};
ghost use Rattle.lms_signer.specs.Views.{key_data};
ghost use Rattle.record_command.specs.Inputs.{IsScriptRead, script_file};

use avm_num::NoMemory;
use avm_outside::Files;
use avm_script::{ReadFault, Script};
use command_parts::{Fault, read_file};
use lms_signer::{KeyFile, read_key};
use std::alloc::Global;

const KEY: usize = 61;

const SCRIPT: usize = 1 << 26;

// The key that the bytes are.
fn key_of(bytes: &[u8]) -> Option<KeyFile>
    ensures value { option_map key_data result ≡ key_file bytes.now }
    ensures types { IfSome result (λ k. HasTypes (key_data k)) }
{
    read_key(bytes)
}

/// The private key in a file; None where the file isn't there or is no private key.
pub fn read_private_key<F: Files>(
    alloc: Global,
    files: &mut F,
    name: &str,
) -> Result<Option<KeyFile>, Fault>
    ensures key { IfOk result (λ k. IsKeyRead (F.file files.old name.now) (option_map key_data k)) }
    ensures types { IfOk result (λ k. IfSome k (λ k. HasTypes (key_data k))) }
    ensures same { (n : List ℕ) → F.file files.new n ≡ F.file files.old n }
    ensures fault { IsErrOf result Fault.Files → Rises (F.faults files.old) (F.faults files.new) }
    ensures no_fault { result ≢ Err Fault.Files → F.faults files.new ≡ F.faults files.old }
    ensures causes { IfErr result IsOfReading }
{
    match read_file(alloc, files, name, KEY) {
        Ok(Some(bytes)) => Ok(key_of(&bytes)),
        Ok(None) => Ok(None),
        Err(fault) => Err(fault),
    }
}

// The script that the bytes are.
#[tactic(auto, unfolding(crate::specs::Inputs::script_file))]
fn script_of(alloc: Global, bytes: &[u8]) -> Result<Option<Script>, NoMemory>
    ensures { IfOk result (λ s. s ≡ script_file bytes.now) }
{
    if bytes.len() > SCRIPT {
        return Ok(None);
    }
    match Script::read(alloc, bytes) {
        Ok(script) => Ok(Some(script)),
        Err(ReadFault::Refused) => Ok(None),
        Err(ReadFault::NoMemory) => Err(NoMemory),
    }
}

/// The script in a file; None where the file isn't there, is too long, or is none.
pub fn read_script<F: Files>(
    alloc: Global,
    files: &mut F,
    name: &str,
) -> Result<Option<Script>, Fault>
    ensures script { IfOk result (IsScriptRead (F.file files.old name.now)) }
    ensures same { (n : List ℕ) → F.file files.new n ≡ F.file files.old n }
    ensures fault { IsErrOf result Fault.Files → Rises (F.faults files.old) (F.faults files.new) }
    ensures no_fault { result ≢ Err Fault.Files → F.faults files.new ≡ F.faults files.old }
    ensures causes { IfErr result IsOfReading }
{
    match read_file(alloc, files, name, SCRIPT) {
        Ok(Some(bytes)) => match script_of(alloc, &bytes) {
            Ok(script) => Ok(script),
            Err(NoMemory) => Err(Fault::NoMemory),
        },
        Ok(None) => Ok(None),
        Err(fault) => Err(fault),
    }
}
