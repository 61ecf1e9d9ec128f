// Reads evidence.
ghost use Rattle.std.specs.Prelude.{◌≡◌, ◌≢◌, ℕ, List, IfOk, IfErr, IsErrOf, option_map};
ghost use Rattle.std.specs.Str.{bytes_eq};
ghost use Rattle.avm_model.specs.Evidence.{evidence_at, key_of};
ghost use Rattle.avm_outside.specs.Outside.{Rises};
ghost use Rattle.command_parts.specs.Reading.{IsReadAs, IsOfReading};
ghost use Rattle.evid_file.specs.Views.{evidence_view};

use avm_outside::Files;
use command_parts::{Fault, read_file};
use evid_file::Evidence;
use std::alloc::Global;

/// The bytes of evidence; None where the file isn't there. What is past the limit changes no judgement.
pub fn read_bytes<F: Files>(
    alloc: Global,
    files: &mut F,
    name: &str,
) -> Result<Option<Vec<u8>>, Fault>
    ensures bytes { IfOk result (λ got. IsReadAs evidence_at (F.file files.old name.now) (option_map (λ v. v.items) got)) }
    ensures same { (n : List ℕ) → F.file files.new n ≡ F.file files.old n }
    ensures fault { IsErrOf result Fault.Files → Rises (F.faults files.old) (F.faults files.new) }
    ensures no_fault { result ≢ Err Fault.Files → F.faults files.new ≡ F.faults files.old }
    ensures causes { IfErr result IsOfReading }
{
    read_file(alloc, files, name, (1 << 26) + (1 << 17))
}

/// Whether the evidence is of the key.
pub fn is_of(key: &[u8; 56], evidence: &Evidence<'_>) -> bool
    ensures { result ≡ bytes_eq (key_of (evidence_view evidence.now)) key.now }
{
    match *evidence {
        Evidence::Double { key: own, .. } => own == *key,
        Evidence::Fork { key: own, .. } => own == *key,
        Evidence::Replay { key: own, .. } => own == *key,
    }
}
