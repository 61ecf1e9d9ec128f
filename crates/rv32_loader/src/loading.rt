//! An image is judged whole, and then put into RAM.

ghost use Rattle.std.specs.Prelude.{◌≡◌, ◌≤◌, ◌<◌, ◌+◌, ◌*◌, ◌^◌, length, false, IsTrue, IfNone, IfOk, OnOk, MatchResult, Some, None};
ghost use Rattle.avm_model.specs.Basics.{first_at};
ghost use Rattle.avm_model.specs.Image.{headers_at, headers_of, is_bad, is_outside, is_entry, place_fault as place_fault_lem, load_fault, put_segments, loaded, entry_of};
ghost use Rattle.rv32_loader.specs.File.{IsElfFile};
ghost use Rattle.rv32_loader.specs.Marking.{mark_segments, loaded_marks};

use crate::header::{half, read_header, word};
use crate::inspection::{begins_elf, file_fault};
use crate::place::{BASE, put_one};
use avm_model::{LoadFault, ProgramHeader};
use rv32_mem::Ram;

fn is_outside_ram(len: usize, header: ProgramHeader) -> bool
    requires { len ≤ 2 ^ 24 }
    ensures { result ≡ is_outside len header }
{
    let end = header.address as u64 + header.memory_size as u64;
    header.kind == 1
        && header.memory_size >= 1
        && !(header.address >= BASE && end <= BASE as u64 + len as u64)
}

fn outside_header(len: usize, file: &[u8], at: usize, count: u32) -> Option<u32>
    requires len { len ≤ 2 ^ 24 }
    requires table { at + 32 * count ≤ length file.now }
    ensures { result ≡ first_at (is_outside len) 0 (headers_at file.now at count) }
{
    for i in 0..count {
        if is_outside_ram(len, read_header(file, at + 32 * i as usize)) {
            return Some(i);
        }
    }
    None
}

fn entry_fits(len: usize, entry: u32) -> bool
    requires { len ≤ 2 ^ 24 }
    ensures { result ≡ is_entry len entry }
{
    entry % 4 == 0 && entry >= BASE && (entry as u64) < BASE as u64 + len as u64
}

#[tactic(auto, unfolding(avm_model::specs::Image::headers_of))]
fn place_fault(len: usize, file: &[u8]) -> Option<LoadFault>
    requires len { len ≤ 2 ^ 24 }
    requires file { IsElfFile file.now }
    ensures value { result ≡ place_fault_lem len file.now }
    ensures inside { IfNone result (first_at (is_outside len) 0 (headers_of file.now) ≡ None) }
{
    if let Some(i) = outside_header(len, file, word(file, 28) as usize, half(file, 44)) {
        return Some(LoadFault::Outside(i));
    }
    if entry_fits(len, word(file, 24)) {
        None
    } else {
        Some(LoadFault::Entry)
    }
}

/// Puts the segments, a later one over an earlier one.
fn put_each(ram: &mut Ram, file: &[u8], at: usize, count: u32)
    requires table { at + 32 * count ≤ length file.now }
    requires file { first_at (is_bad (length file.now)) 0 (headers_at file.now at count) ≡ None }
    requires inside { first_at (is_outside (length ram.old.bytes)) 0 (headers_at file.now at count) ≡ None }
    requires ram { length ram.old.bytes ≤ 2 ^ 24 }
    ensures bytes { ram.new.bytes ≡ put_segments file.now ram.old.bytes (headers_at file.now at count) }
    ensures len { length ram.new.bytes ≡ length ram.old.bytes }
    ensures marks { ram.new.dirty ≡ mark_segments ram.old.dirty (headers_at file.now at count) }
    ensures pages { length ram.new.dirty ≡ length ram.old.dirty }
{
    for i in 0..count {
        put_one(ram, file, read_header(file, at + 32 * i as usize));
    }
}

/// Puts an image into RAM, which is to hold zeros, and gives its entry. It is refused by the first fault that applies
/// (docs/FORMATS.md, "Images"), and then RAM stays as it was. It marks the pages in which it puts bytes.
#[tactic(auto, unfolding(avm_model::specs::Image::headers_of))]
pub fn load(ram: &mut Ram, image: &[u8]) -> Result<u32, LoadFault>
    ensures fault { MatchResult result (λ _. load_fault (length ram.old.bytes) image.now ≡ None) (λ fault. load_fault (length ram.old.bytes) image.now ≡ Some fault) }
    ensures entry { IfOk result (λ entry. entry ≡ entry_of image.now) }
    ensures bytes { MatchResult result (λ _. ram.new.bytes ≡ loaded ram.old.bytes image.now) (λ _. ram.new ≡ ram.old) }
    ensures marks { OnOk result (ram.new.dirty ≡ loaded_marks ram.old.dirty image.now) }
    ensures pages { length ram.new.dirty ≡ length ram.old.dirty }
{
    let len = ram.bytes().len();
    if let Some(fault) = file_fault(image) {
        return Err(fault);
    }
    if begins_elf(image) {
        if let Some(fault) = place_fault(len, image) {
            return Err(fault);
        }
        put_each(ram, image, word(image, 28) as usize, half(image, 44));
        return Ok(word(image, 24));
    }
    if image.len() > len {
        return Err(LoadFault::TooLong);
    }
    ram.put(0, image);
    Ok(BASE)
}
