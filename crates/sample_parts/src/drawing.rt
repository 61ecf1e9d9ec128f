// Words drawn one after another.
ghost use Rattle.std.specs.Prelude.{◌≡◌, ◌≤◌, IfOk, OnOk, length};
ghost use Rattle.sample_parts.specs.Drawn.{generator_of, drawn_bytes, behind, message_of, behind_message};

use rand_chacha::ChaCha20Rng;
use rand_core::SeedableRng;
use rand_core::utils::NextWord;
use std::alloc::{AllocError, Global};

/// The generator of a sample, before its first word.
pub fn generator(seed: u64) -> ChaCha20Rng
    ensures { result ≡ generator_of seed }
{
    let mut bytes = [0u8; 32];
    bytes[..8].copy_from_slice(&seed.to_be_bytes());
    ChaCha20Rng::from_seed(bytes)
}

/// The bytes of the next words, each in little-endian.
#[tactic(auto, unfolding(crate::specs::Drawn::drawn_bytes, crate::specs::Drawn::behind))]
pub fn draw_bytes(alloc: Global, rng: &mut ChaCha20Rng, words: usize) -> Result<Vec<u8>, AllocError>
    ensures bytes { IfOk result (λ v. v.items ≡ drawn_bytes words rng.old) }
    ensures behind { OnOk result (rng.new ≡ behind words rng.old) }
{
    let mut bytes = Vec::new(alloc);
    for _i in 0..words {
        bytes.extend_from_slice(&rng.next_word().to_le_bytes())?;
    }
    Ok(bytes)
}

/// A message of 1 to 1024 bytes: its length by a word, and the bytes of the words that follow.
#[tactic(auto, unfolding(crate::specs::Drawn::message_of, crate::specs::Drawn::behind_message))]
pub fn draw_message(alloc: Global, rng: &mut ChaCha20Rng) -> Result<Vec<u8>, AllocError>
    ensures bytes { IfOk result (λ v. v.items ≡ message_of rng.old) }
    ensures few { IfOk result (λ v. length v.items ≤ 1024) }
    ensures behind { OnOk result (rng.new ≡ behind_message rng.old) }
{
    let length = 1 + (rng.next_word() % 1024) as usize;
    let mut bytes = draw_bytes(alloc, rng, (length + 3) / 4)?;
    bytes.truncate(length);
    Ok(bytes)
}
