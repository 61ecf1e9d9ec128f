//! RAM as one list of bytes, and numbers in it, the low byte first.

ghost use Rattle.std.specs.Prelude.{◌≡◌, ◌≤◌, ◌<◌, ◌+◌, ◌*◌, ◌^◌, length, slice_index, slice_set, ◌%◌, IfSome};
ghost use Rattle.avm_model.specs.Memory.{place_of, number_at as number_at_lem, with_number, ram_load as ram_load_lem, ram_store as ram_store_lem};
ghost use Rattle.avm_model.specs.Values.{bytes_of};

use avm_model::Width;

/// The first address of RAM.
const BASE: usize = 0x8000_0000;

/// The place of the bytes from the address on, where they are aligned and lie in RAM.
pub fn place(ram: &[u8], address: u32, width: Width) -> Option<usize>
    ensures value { result ≡ place_of ram.now address (bytes_of width) }
    ensures bound { IfSome result (λ i. i < 2 ^ 32) }
{
    let start = address as usize;
    let end = start + width.bytes() as usize;
    if address % width.bytes() == 0 && start >= BASE && end <= BASE + ram.len() {
        Some(start - BASE)
    } else {
        None
    }
}

/// The byte at the place, and 0 past the end.
fn byte_at(bytes: &[u8], i: usize) -> u32
    ensures value { result ≡ slice_index bytes.now i }
    ensures bound { result < 256 }
{
    if i < bytes.len() { bytes[i] as u32 } else { 0 }
}

/// The number that the bytes from the place on spell.
pub fn number_at(width: Width, bytes: &[u8], i: usize) -> u32
    requires { i < 2 ^ 32 }
    ensures value { result ≡ number_at_lem (bytes_of width) bytes.now i }
    ensures bound { result < 2 ^ (8 * bytes_of width) }
{
    let (a, b) = (byte_at(bytes, i), byte_at(bytes, i + 1));
    let (c, d) = (byte_at(bytes, i + 2), byte_at(bytes, i + 3));
    match width {
        Width::Byte => a,
        Width::Half => a + 256 * b,
        Width::Word => a + 256 * b + 65_536 * c + 16_777_216 * d,
    }
}

/// Puts a byte at the place; past the end nothing changes.
fn set_byte(bytes: &mut [u8], i: usize, value: u32)
    ensures value { bytes.new ≡ slice_set bytes.old i (value % 256) }
{
    if i < bytes.len() {
        bytes[i] = (value % 256) as u8;
    }
}

/// Puts the low bytes of the number at the place.
pub fn put_number(width: Width, bytes: &mut [u8], i: usize, value: u32)
    requires { i < 2 ^ 32 }
    ensures { bytes.new ≡ with_number (bytes_of width) bytes.old i value }
{
    set_byte(bytes, i, value);
    match width {
        Width::Byte => {}
        Width::Half => set_byte(bytes, i + 1, value / 256),
        Width::Word => {
            set_byte(bytes, i + 1, value / 256);
            set_byte(bytes, i + 2, value / 256 / 256);
            set_byte(bytes, i + 3, value / 256 / 256 / 256);
        }
    }
}

/// What a load from RAM gives.
pub fn ram_load(ram: &[u8], address: u32, width: Width) -> Option<u32>
    ensures value { result ≡ ram_load_lem ram.now address (bytes_of width) }
    ensures bound { IfSome result (λ v. v < 2 ^ (8 * bytes_of width)) }
{
    let i = place(ram, address, width)?;
    Some(number_at(width, ram, i))
}
