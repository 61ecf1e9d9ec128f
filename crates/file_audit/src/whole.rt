// Reads a file whole.
ghost use Rattle.std.specs.Prelude.{◌≡◌, ◌≢◌, ◌<◌, ◌^◌, ℕ, List, IfOk, IsErrOf, option_map};
ghost use Rattle.avm_outside.specs.Outside.{Rises};
ghost use Rattle.command_parts.specs.Reading.{IsReadOf};
ghost use Rattle.command_parts.specs.declared.fault.Fault.TheVariants as parts;

use crate::Fault;
use avm_outside::Files;
use command_parts::read_file;
use std::alloc::Global;

// The same fault, of the two that reading has.
fn of_reading(fault: command_parts::Fault) -> Fault
    ensures memory { fault ≡ parts.NoMemory → result ≡ Fault.NoMemory }
    ensures files { fault ≢ parts.NoMemory → result ≡ Fault.Files }
{
    match fault {
        command_parts::Fault::NoMemory => Fault::NoMemory,
        _ => Fault::Files,
    }
}

/// The bytes of a file, those past the limit but one left out; None where it isn't there.
pub fn read_whole<F: Files>(
    alloc: Global,
    files: &mut F,
    name: &str,
    limit: usize,
) -> Result<Option<Vec<u8>>, Fault>
    requires { limit < 2 ^ 32 }
    ensures bytes { IfOk result (λ got. IsReadOf limit (F.file files.old name.now) (option_map (λ v. v.items) got)) }
    ensures same { (n : List ℕ) → F.file files.new n ≡ F.file files.old n }
    ensures fault { IsErrOf result Fault.Files → Rises (F.faults files.old) (F.faults files.new) }
    ensures no_fault { result ≢ Err Fault.Files → F.faults files.new ≡ F.faults files.old }
{
    match read_file(alloc, files, name, limit) {
        Ok(got) => Ok(got),
        Err(fault) => Err(of_reading(fault)),
    }
}
