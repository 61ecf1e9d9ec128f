//! Words in bytes, the low byte first.

ghost use Rattle.std.specs.Prelude.{◌≡◌, ◌≤◌, ◌<◌, ◌+◌, ◌^◌, length, slice_index};
ghost use Rattle.avm_model.specs.Memory.{number_at, with_number};

/// The word at the place, with zeros past the end.
pub fn word_at(bytes: &[u8], at: usize) -> u32
    requires { at < 2 ^ 32 }
    ensures { result ≡ number_at 4 bytes.now at }
{
    let [a, b, c, d] = [
        byte_at(bytes, at),
        byte_at(bytes, at + 1),
        byte_at(bytes, at + 2),
        byte_at(bytes, at + 3),
    ];
    a + 256 * b + 65536 * c + 16777216 * d
}

fn byte_at(bytes: &[u8], at: usize) -> u32
    ensures value { result ≡ slice_index bytes.now at }
    ensures bound { result < 256 }
{
    if at < bytes.len() {
        bytes[at] as u32
    } else {
        0
    }
}

/// Puts the four bytes of the value.
pub fn put_word(bytes: &mut [u8; 1024], at: usize, value: u32)
    requires { at + 4 ≤ 1024 }
    ensures { bytes.new ≡ with_number 4 bytes.old at value }
{
    bytes[at] = (value % 256) as u8;
    bytes[at + 1] = (value / 256 % 256) as u8;
    bytes[at + 2] = (value / 256 / 256 % 256) as u8;
    bytes[at + 3] = (value / 256 / 256 / 256 % 256) as u8;
}
