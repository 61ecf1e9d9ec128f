// The files of a private key and of a configuration.
ghost use Rattle.std.specs.Prelude.{◌≡◌, ◌≢◌, ℕ, List, IfOk, IfErr, IfSome, IsErrOf, MatchOption, option_map};
ghost use Rattle.avm_model.specs.Init.{ConfigData};
ghost use Rattle.avm_model.specs.Keys.{HasTypes, key_file};
ghost use Rattle.avm_outside.specs.Outside.{Rises};
ghost use Rattle.avm_script.specs.ConfigView.{config_view};
ghost use Rattle.command_parts.specs.Reading.{IsOfReading};
ghost use Rattle.lms_signer.specs.Views.{key_data};
ghost use Rattle.format_command.specs.FileOf.{IsConfigRead, IsConfigText, IsKeyRead};

use avm_num::NoMemory;
use avm_outside::Files;
use avm_script::{Config, ReadFault, read_config};
use command_parts::{Fault, read_file};
use lms_signer::{KeyFile, read_key};
use std::alloc::Global;

const KEY: usize = 61;

const CONFIG: usize = 65_536;

// The key that the bytes are.
fn key_of(bytes: &[u8]) -> Option<KeyFile>
    ensures value { option_map key_data result ≡ key_file bytes.now }
    ensures types { IfSome result (λ k. HasTypes (key_data k)) }
{
    read_key(bytes)
}

/// The private key in a file; None where the file isn't there or is no private key.
pub fn read_private_key<F: Files>(
    alloc: Global,
    files: &mut F,
    name: &str,
) -> Result<Option<KeyFile>, Fault>
    ensures key { IfOk result (λ k. IsKeyRead (F.file files.old name.now) (option_map key_data k)) }
    ensures types { IfOk result (λ k. IfSome k (λ k. HasTypes (key_data k))) }
    ensures same { (n : List ℕ) → F.file files.new n ≡ F.file files.old n }
    ensures fault { IsErrOf result Fault.Files → Rises (F.faults files.old) (F.faults files.new) }
    ensures no_fault { result ≢ Err Fault.Files → F.faults files.new ≡ F.faults files.old }
    ensures causes { IfErr result IsOfReading }
{
    match read_file(alloc, files, name, KEY) {
        Ok(Some(bytes)) => Ok(key_of(&bytes)),
        Ok(None) => Ok(None),
        Err(fault) => Err(fault),
    }
}

// The configuration that the bytes are.
fn config_of(alloc: Global, bytes: &[u8]) -> Result<Option<Config>, NoMemory>
    ensures { IfOk result (λ c. MatchOption c ((d : ConfigData) → IsConfigText bytes.now d → ⊥) (λ c. IsConfigText bytes.now (config_view c))) }
{
    if bytes.len() > CONFIG {
        return Ok(None);
    }
    match read_config(alloc, bytes) {
        Ok(config) => Ok(Some(config)),
        Err(ReadFault::Refused) => Ok(None),
        Err(ReadFault::NoMemory) => Err(NoMemory),
    }
}

/// The configuration in a file; None where the file isn't there or is none.
pub fn read_config_file<F: Files>(
    alloc: Global,
    files: &mut F,
    name: &str,
) -> Result<Option<Config>, Fault>
    ensures config { IfOk result (λ c. IsConfigRead (F.file files.old name.now) (option_map config_view c)) }
    ensures same { (n : List ℕ) → F.file files.new n ≡ F.file files.old n }
    ensures fault { IsErrOf result Fault.Files → Rises (F.faults files.old) (F.faults files.new) }
    ensures no_fault { result ≢ Err Fault.Files → F.faults files.new ≡ F.faults files.old }
    ensures causes { IfErr result IsOfReading }
{
    match read_file(alloc, files, name, CONFIG) {
        Ok(Some(bytes)) => match config_of(alloc, &bytes) {
            Ok(config) => Ok(config),
            Err(NoMemory) => Err(Fault::NoMemory),
        },
        Ok(None) => Ok(None),
        Err(fault) => Err(fault),
    }
}
