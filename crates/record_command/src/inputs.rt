// What recording reads, each file judged before the next.
ghost use Rattle.std.specs.Prelude.{◌≡◌, ◌≢◌, ℕ, List, IfOk, IfErr, IsErrOf};
ghost use Rattle.avm_model.specs.Keys.{HasTypes};
ghost use Rattle.avm_outside.specs.Outside.{Rises};
ghost use Rattle.command_parts.specs.Reading.{IsOfReading};
ghost use Rattle.lms_signer.specs.Views.{key_data};
ghost use Rattle.record_command.specs.Inputs.{AreRead};

use crate::FileOption;
use crate::files::{read_private_key, read_script};
use avm_outside::Files;
use avm_script::Script;
use command_parts::Fault;
use lms_signer::KeyFile;
use std::alloc::Global;

/// A private key, and the script that is recorded under it.
#[derive(Drop)]
pub struct Start {
    pub key: KeyFile,
    pub script: Script,
}

/// Reads a private key and a script, in this order.
pub fn read_start<F: Files>(
    alloc: Global,
    files: &mut F,
    key: &str,
    script: &str,
) -> Result<Result<Start, FileOption>, Fault>
    ensures read { IfOk result (AreRead (record { key = key.now; script = script.now }) (F.file files.old)) }
    ensures types { IfOk result (λ r. IfOk r (λ s. HasTypes (key_data s.key))) }
    ensures same { (n : List ℕ) → F.file files.new n ≡ F.file files.old n }
    ensures fault { IsErrOf result Fault.Files → Rises (F.faults files.old) (F.faults files.new) }
    ensures no_fault { result ≢ Err Fault.Files → F.faults files.new ≡ F.faults files.old }
    ensures causes { IfErr result IsOfReading }
{
    let key = match read_private_key(alloc, files, key) {
        Ok(Some(key)) => key,
        Ok(None) => return Ok(Err(FileOption::Key)),
        Err(fault) => return Err(fault),
    };
    match read_script(alloc, files, script) {
        Ok(Some(script)) => Ok(Ok(Start { key, script })),
        Ok(None) => Ok(Err(FileOption::Script)),
        Err(fault) => Err(fault),
    }
}
