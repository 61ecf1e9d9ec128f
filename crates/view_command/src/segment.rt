// Reads a segment's file.
ghost use Rattle.std.specs.Prelude.{◌≡◌, ◌≢◌, ℕ, List, IfOk, IfErr, IsErrOf, option_map};
ghost use Rattle.avm_model.specs.Segment.{whole_segment_of};
ghost use Rattle.avm_outside.specs.Outside.{Rises};
ghost use Rattle.command_parts.specs.Reading.{IsReadAs, IsOfReading};

use avm_outside::Files;
use command_parts::{Fault, read_file};
use std::alloc::Global;

/// A segment's bytes; None where the file isn't there. What is past the limit changes no judgement.
pub fn read_segment<F: Files>(
    alloc: Global,
    files: &mut F,
    name: &str,
) -> Result<Option<Vec<u8>>, Fault>
    ensures bytes { IfOk result (λ got. IsReadAs whole_segment_of (F.file files.old name.now) (option_map (λ v. v.items) got)) }
    ensures same { (n : List ℕ) → F.file files.new n ≡ F.file files.old n }
    ensures fault { IsErrOf result Fault.Files → Rises (F.faults files.old) (F.faults files.new) }
    ensures no_fault { result ≢ Err Fault.Files → F.faults files.new ≡ F.faults files.old }
    ensures causes { IfErr result IsOfReading }
{
    read_file(alloc, files, name, 1 << 26)
}
