// Reads an image's file.
ghost use Rattle.std.specs.Prelude.{◌≡◌, ◌≢◌, ℕ, List, IfOk, IsErrOf, option_map};
ghost use Rattle.avm_outside.specs.Outside.{Rises};
ghost use Rattle.audit_command.specs.ImageFile.{image_file};
ghost use Rattle.command_parts.specs.Tested.{IsTested, IsTestedRead};

use avm_outside::Files;
use file_audit::{Fault, read_whole};
use rv32_loader::inspect;
use std::alloc::Global;

const LIMIT: usize = 1 << 25;

#[tactic(auto, unfolding(crate::specs::ImageFile::image_file))]
fn is_image(bytes: &[u8]) -> bool
    ensures { result ≡ image_file bytes.now }
{
    bytes.len() <= LIMIT && inspect(bytes).is_ok()
}

// The bytes, where they are an image.
fn checked(bytes: Vec<u8>) -> Option<Vec<u8>>
    ensures { IsTested image_file (Some bytes.items) (option_map (λ v. v.items) result) }
{
    if is_image(&bytes) { Some(bytes) } else { None }
}

/// The image in a file; None where the file isn't there, is longer than an image, or has a fault that shows in it alone.
pub fn read_image<F: Files>(
    alloc: Global,
    files: &mut F,
    name: &str,
) -> Result<Option<Vec<u8>>, Fault>
    ensures image { IfOk result (λ got. IsTestedRead image_file (F.file files.old name.now) (option_map (λ v. v.items) got)) }
    ensures same { (n : List ℕ) → F.file files.new n ≡ F.file files.old n }
    ensures fault { IsErrOf result Fault.Files → Rises (F.faults files.old) (F.faults files.new) }
    ensures no_fault { result ≢ Err Fault.Files → F.faults files.new ≡ F.faults files.old }
{
    match read_whole(alloc, files, name, LIMIT)? {
        Some(bytes) => Ok(checked(bytes)),
        None => Ok(None),
    }
}
