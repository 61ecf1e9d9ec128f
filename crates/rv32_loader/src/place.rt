//! A segment is put into RAM.

ghost use Rattle.std.specs.Prelude.{◌≡◌, ◌≤◌, ◌+◌, ◌^◌, length, false, slice_range, IsTrue};
ghost use Rattle.avm_model.specs.Image.{is_load, is_bad, is_outside, put_segment};
ghost use Rattle.rv32_loader.specs.Marking.{mark_segment};

use avm_model::ProgramHeader;
use rv32_mem::Ram;

/// The first address of RAM.
pub const BASE: u32 = 0x8000_0000;

/// The bytes of a segment that stand in the file.
fn file_part(file: &[u8], header: ProgramHeader) -> &[u8]
    requires load { IsTrue (is_load header) }
    requires file { is_bad (length file.now) header ≡ false }
    ensures value { result.now ≡ slice_range file.now header.offset (header.offset + header.file_size) }
    ensures len { length result.now ≡ header.file_size }
{
    if header.file_size == 0 {
        return &file[..0];
    }
    let from = header.offset as usize;
    &file[from..from + header.file_size as usize]
}

/// Puts a segment: its bytes of the file, and zeros behind them.
pub fn put_one(ram: &mut Ram, file: &[u8], header: ProgramHeader)
    requires file { is_bad (length file.now) header ≡ false }
    requires inside { is_outside (length ram.old.bytes) header ≡ false }
    requires ram { length ram.old.bytes ≤ 2 ^ 24 }
    ensures bytes { ram.new.bytes ≡ put_segment file.now ram.old.bytes header }
    ensures len { length ram.new.bytes ≡ length ram.old.bytes }
    ensures marks { ram.new.dirty ≡ mark_segment ram.old.dirty header }
    ensures pages { length ram.new.dirty ≡ length ram.old.dirty }
{
    if header.kind == 1 && header.memory_size >= 1 {
        let at = header.address - BASE;
        ram.put(at, file_part(file, header));
        ram.clear(at + header.file_size, header.memory_size - header.file_size);
    }
}
