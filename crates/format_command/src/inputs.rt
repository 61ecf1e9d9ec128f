// What formatting reads, each file judged before the next.
ghost use Rattle.std.specs.Prelude.{◌≡◌, ◌≢◌, ℕ, List, IfOk, IfErr, IsErrOf};
ghost use Rattle.avm_outside.specs.Outside.{Rises};
ghost use Rattle.command_parts.specs.Reading.{IsOfReading};
ghost use Rattle.format_command.specs.Booted.{IsStart};
ghost use Rattle.format_command.specs.Inputs.{AreRead};

use crate::FileOption;
use crate::boot::{Boot, boot_machine};
use crate::files::{read_config_file, read_private_key};
use avm_outside::Files;
use command_parts::{Fault, read_file};
use lms_signer::KeyFile;
use std::alloc::Global;

/// A private key, and the machine that boots.
#[derive(Drop)]
pub struct Start {
    pub key: KeyFile,
    pub boot: Boot,
}

/// Reads a private key, a configuration and an image, in this order.
pub fn read_start<F: Files>(
    alloc: Global,
    files: &mut F,
    key: &str,
    config: &str,
    image: &str,
) -> Result<Result<Start, FileOption>, Fault>
    ensures read { IfOk result (AreRead (record { key = key.now; config = config.now; image = image.now }) (F.file files.old)) }
    ensures start { IfOk result (λ r. IfOk r IsStart) }
    ensures same { (n : List ℕ) → F.file files.new n ≡ F.file files.old n }
    ensures fault { IsErrOf result Fault.Files → Rises (F.faults files.old) (F.faults files.new) }
    ensures no_fault { result ≢ Err Fault.Files → F.faults files.new ≡ F.faults files.old }
    ensures causes { IfErr result IsOfReading }
{
    let key = match read_private_key(alloc, files, key) {
        Ok(Some(key)) => key,
        Ok(None) => return Ok(Err(FileOption::Key)),
        Err(fault) => return Err(fault),
    };
    let config = match read_config_file(alloc, files, config) {
        Ok(Some(config)) => config,
        Ok(None) => return Ok(Err(FileOption::Config)),
        Err(fault) => return Err(fault),
    };
    let bytes = match read_file(alloc, files, image, 1 << 25) {
        Ok(Some(bytes)) => bytes,
        Ok(None) => return Ok(Err(FileOption::Image)),
        Err(fault) => return Err(fault),
    };
    match boot_machine(alloc, config, &bytes) {
        Ok(Some(boot)) => Ok(Ok(Start { key, boot })),
        Ok(None) => Ok(Err(FileOption::Image)),
        Err(_) => Err(Fault::NoMemory),
    }
}
