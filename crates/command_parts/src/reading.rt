// Reads a file whole, piece by piece.
ghost use Rattle.std.specs.Prelude.{◌≡◌, ◌≢◌, ◌<◌, ◌^◌, ℕ, List, IfOk, IfErr, IsErrOf, option_map};
ghost use Rattle.avm_outside.specs.Outside.{Rises};
ghost use Rattle.command_parts.specs.Reading.{IsReadOf, IsOfReading};

use crate::Fault;
use avm_outside::{Failed, Files};
use std::alloc::Global;

/// The bytes of a file, those past the limit but one left out; None where it isn't there.
pub fn read_file<F: Files>(
    alloc: Global,
    files: &mut F,
    name: &str,
    limit: usize,
) -> Result<Option<Vec<u8>>, Fault>
    requires { limit < 2 ^ 32 }
    ensures bytes { IfOk result (λ got. IsReadOf limit (F.file files.old name.now) (option_map (λ v. v.items) got)) }
    ensures same { (n : List ℕ) → F.file files.new n ≡ F.file files.old n }
    ensures fault { IsErrOf result Fault.Files → Rises (F.faults files.old) (F.faults files.new) }
    ensures no_fault { result ≢ Err Fault.Files → F.faults files.new ≡ F.faults files.old }
    ensures causes { IfErr result IsOfReading }
{
    let mut bytes = Vec::new(alloc);
    let mut buf = [0u8; 4096];
    while bytes.len() <= limit {
        match files.read_at(name, bytes.len() as u64, &mut buf) {
            Err(Failed) => return Err(Fault::Files),
            Ok(None) => {
                if bytes.is_empty() {
                    return Ok(None);
                }
                return Ok(Some(bytes));
            }
            Ok(Some(0)) => return Ok(Some(bytes)),
            Ok(Some(n)) => {
                let room = limit + 1 - bytes.len();
                bytes.extend_from_slice(&buf[..n.min(room)])?;
            }
        }
    }
    Ok(Some(bytes))
}
