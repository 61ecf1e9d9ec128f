ghost use Rattle.std.specs.Prelude.{◌≡◌, ◌≤◌, ◌-◌, ◌∷◌, ◌++◌, map, take, replicate};
ghost use Rattle.sha2.specs.Sha256.{padded_message};
ghost use Rattle.sha2.specs.Sha256.{sha256};

use crate::blocks::{absorb, digests, initial};

// A short text and the byte 1000 0000, in one block.
fn marked(text: &[u8; 55], len: usize) -> [u8; 64]
    requires { len ≤ 55 }
    ensures { result ≡ take len text.now ++ (0x80 ∷ replicate (63 - len) 0) }
{
    let mut block = [0u8; 64];
    block[..len].copy_from_slice(&text[..len]);
    block[len] = 0x80;
    block
}

// A short text with its padding is one block.
fn padded(text: &[u8; 55], len: usize) -> [u8; 64]
    requires { len ≤ 55 }
    ensures { result ≡ padded_message (take len text.now) }
{
    let mut block = marked(text, len);
    block[56..].copy_from_slice(&(8 * len as u64).to_be_bytes());
    block
}

/// SHA-256 of the first `len` bytes of each of eight texts.
pub fn sha256_x8(texts: &[[u8; 55]; 8], len: usize) -> [[u8; 32]; 8]
    requires { len ≤ 55 }
    ensures { result ≡ map (λ text. sha256 (take len text)) texts.now }
{
    let blocks = [
        padded(&texts[0], len),
        padded(&texts[1], len),
        padded(&texts[2], len),
        padded(&texts[3], len),
        padded(&texts[4], len),
        padded(&texts[5], len),
        padded(&texts[6], len),
        padded(&texts[7], len),
    ];
    digests(absorb(initial(), &blocks))
}
