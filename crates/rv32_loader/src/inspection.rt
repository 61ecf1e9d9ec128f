//! What a file alone shows.

ghost use Rattle.std.specs.Prelude.{◌≡◌, ◌≤◌, ◌+◌, ◌*◌, length, IsTrue, MatchResult, IfNone, Some, None};
ghost use Rattle.avm_model.specs.Basics.{first_at};
ghost use Rattle.avm_model.specs.Image.{is_elf, is_elf32, is_riscv, is_compressed, has_table, headers_at, is_bad, elf_fault as elf_fault_lem, file_fault as file_fault_lem};
ghost use Rattle.rv32_loader.specs.File.{IsElfFile};

use crate::header::{half, read_header, word};
use avm_model::{LoadFault, ProgramHeader};

/// Whether a file is to be an ELF file.
pub fn begins_elf(file: &[u8]) -> bool
    ensures { result ≡ is_elf file.now }
{
    file.len() >= 4 && file[0] == 0x7f && file[1] == 0x45 && file[2] == 0x4c && file[3] == 0x46
}

fn begins_elf32(file: &[u8]) -> bool
    ensures { result ≡ is_elf32 file.now }
{
    file.len() >= 52 && begins_elf(file) && file[4] == 1 && file[5] == 1 && file[6] == 1
}

fn table_fits(file: &[u8]) -> bool
    requires { 52 ≤ length file.now }
    ensures { result ≡ has_table file.now }
{
    let count = half(file, 44) as usize;
    half(file, 42) == 32
        && count >= 1
        && count <= 64
        && word(file, 28) as usize + 32 * count <= file.len()
}

fn is_bad_header(len: usize, header: ProgramHeader) -> bool
    ensures { result ≡ is_bad len header }
{
    let end = header.offset as usize + header.file_size as usize;
    header.kind == 1
        && (header.memory_size < header.file_size || header.file_size >= 1 && len < end)
}

fn bad_header(file: &[u8], at: usize, count: u32) -> Option<u32>
    requires { at + 32 * count ≤ length file.now }
    ensures { result ≡ first_at (is_bad (length file.now)) 0 (headers_at file.now at count) }
{
    for i in 0..count {
        if is_bad_header(file.len(), read_header(file, at + 32 * i as usize)) {
            return Some(i);
        }
    }
    None
}

#[tactic(auto, unfolding(avm_model::specs::Image::headers_of))]
fn elf_fault(file: &[u8]) -> Option<LoadFault>
    ensures value { result ≡ elf_fault_lem file.now }
    ensures file { IfNone result (IsElfFile file.now) }
{
    if !begins_elf32(file) {
        return Some(LoadFault::NotElf);
    }
    if half(file, 16) != 2 || half(file, 18) != 243 {
        return Some(LoadFault::NotRiscv32);
    }
    if word(file, 36) % 2 == 1 {
        return Some(LoadFault::Compressed);
    }
    if !table_fits(file) {
        return Some(LoadFault::Headers);
    }
    match bad_header(file, word(file, 28) as usize, half(file, 44)) {
        Some(i) => Some(LoadFault::Segment(i)),
        None => None,
    }
}

/// The first fault that a file alone shows.
pub fn file_fault(file: &[u8]) -> Option<LoadFault>
    ensures value { result ≡ file_fault_lem file.now }
    ensures file { IfNone result (IsTrue (is_elf file.now) → IsElfFile file.now) }
{
    if file.is_empty() {
        return Some(LoadFault::Empty);
    }
    if begins_elf(file) {
        elf_fault(file)
    } else {
        None
    }
}

/// Refuses an image for what the file alone shows: all faults but TooLong, Outside and Entry (docs/FORMATS.md, "Images").
pub fn inspect(image: &[u8]) -> Result<(), LoadFault>
    ensures { MatchResult result (λ _. file_fault_lem image.now ≡ None) (λ fault. file_fault_lem image.now ≡ Some fault) }
{
    match file_fault(image) {
        None => Ok(()),
        Some(fault) => Err(fault),
    }
}
