// Reads files up to their limits: what is past them changes no judgement.
ghost use Rattle.std.specs.Prelude.{◌≡◌, ◌≢◌, ℕ, List, IfOk, IsErrOf, option_map};
ghost use Rattle.avm_model.specs.Audit.{auths_within};
ghost use Rattle.avm_model.specs.Evidence.{evidence_at};
ghost use Rattle.avm_outside.specs.Outside.{Rises};
ghost use Rattle.command_parts.specs.Reading.{IsReadAs};

use avm_outside::Files;
use file_audit::{Fault, read_whole};
use std::alloc::Global;

/// The bytes of authenticators; None where the file isn't there.
pub fn read_auths<F: Files>(
    alloc: Global,
    files: &mut F,
    name: &str,
) -> Result<Option<Vec<u8>>, Fault>
    ensures bytes { IfOk result (λ got. IsReadAs auths_within (F.file files.old name.now) (option_map (λ v. v.items) got)) }
    ensures same { (n : List ℕ) → F.file files.new n ≡ F.file files.old n }
    ensures fault { IsErrOf result Fault.Files → Rises (F.faults files.old) (F.faults files.new) }
    ensures no_fault { result ≢ Err Fault.Files → F.faults files.new ≡ F.faults files.old }
{
    read_whole(alloc, files, name, 1 << 24)
}

/// The bytes of evidence; None where the file isn't there.
pub fn read_evidence<F: Files>(
    alloc: Global,
    files: &mut F,
    name: &str,
) -> Result<Option<Vec<u8>>, Fault>
    ensures bytes { IfOk result (λ got. IsReadAs evidence_at (F.file files.old name.now) (option_map (λ v. v.items) got)) }
    ensures same { (n : List ℕ) → F.file files.new n ≡ F.file files.old n }
    ensures fault { IsErrOf result Fault.Files → Rises (F.faults files.old) (F.faults files.new) }
    ensures no_fault { result ≢ Err Fault.Files → F.faults files.new ≡ F.faults files.old }
{
    read_whole(alloc, files, name, (1 << 26) + (1 << 17))
}
