//! Numbers and program headers in a file (ELF-32 Object File Format).

ghost use Rattle.std.specs.Prelude.{◌≡◌, ◌≤◌, ◌<◌, ◌+◌, ◌^◌, length};
ghost use Rattle.avm_model.specs.Memory.{number_at};
ghost use Rattle.avm_model.specs.Image.{header_at};

use avm_model::ProgramHeader;

/// The two bytes from a place on, the low one first.
pub fn half(bytes: &[u8], at: usize) -> u32
    requires { at + 2 ≤ length bytes.now }
    ensures value { result ≡ number_at 2 bytes.now at }
    ensures bound { result < 2 ^ 16 }
{
    bytes[at] as u32 + 256 * bytes[at + 1] as u32
}

/// The four bytes from a place on, the low one first.
pub fn word(bytes: &[u8], at: usize) -> u32
    requires { at + 4 ≤ length bytes.now }
    ensures { result ≡ number_at 4 bytes.now at }
{
    bytes[at] as u32
        + 256 * bytes[at + 1] as u32
        + 65536 * bytes[at + 2] as u32
        + 16777216 * bytes[at + 3] as u32
}

/// The program header at a place.
pub fn read_header(bytes: &[u8], at: usize) -> ProgramHeader
    requires { at + 32 ≤ length bytes.now }
    ensures { result ≡ header_at bytes.now at }
{
    ProgramHeader {
        kind: word(bytes, at),
        offset: word(bytes, at + 4),
        address: word(bytes, at + 8),
        file_size: word(bytes, at + 16),
        memory_size: word(bytes, at + 20),
    }
}
