// The keys of the two nodes, and the image of the first.
ghost use Rattle.std.specs.Prelude.{◌≡◌, ◌++◌, IfOk, OnOk};
ghost use Rattle.std.specs.Int.{w32, to_le_bytes};
ghost use Rattle.avm_model.specs.Keys.{HasTypes};
ghost use Rattle.avm_num.specs.Lists.{list_bytes};
ghost use Rattle.lms_signer.specs.Views.{key_data};
ghost use Rattle.sample_parts.specs.Drawn.{behind};
ghost use Rattle.sample_parts.specs.Nodes.{key_of, behind_key, image_of};

use crate::drawing::draw_bytes;
use avm_hash::Digest;
use lms_signer::KeyFile;
use rand_chacha::ChaCha20Rng;
use std::alloc::{AllocError, Global};

/// The headers of an executable with one segment at 80000000.
const ELF_FRONT: [u8; 84] = [
    0x7f, 0x45, 0x4c, 0x46, 1, 1, 1, 0, 0, 0, 0, 0, 0, 0, 0, 0, 2, 0, 243, 0, 1, 0, 0, 0, 0, 0, 0,
    0x80, 52, 0, 0, 0, 0, 0, 0, 0, 0, 0, 0, 0, 52, 0, 32, 0, 1, 0, 0, 0, 0, 0, 0, 0, 1, 0, 0, 0,
    84, 0, 0, 0, 0, 0, 0, 0x80, 0, 0, 0, 0x80, 0, 0x20, 3, 0, 0, 0x20, 3, 0, 7, 0, 0, 0, 4, 0, 0,
    0,
];

/// The guest that echoes.
const ECHO: [u32; 32] = [
    0x100002b7, 0x10001337, 0x100023b7, 0x0002a823, 0x0042a403, 0x00044a63, 0x00400493, 0x06940063,
    0x0082a023, 0xfe9ff06f, 0x0142a483, 0xfe04c0e3, 0x0182a503, 0x02a2a023, 0x0292a223, 0x00000593,
    0x0095de63, 0x00b30633, 0x00062683, 0x00b38733, 0x00d72023, 0x00458593, 0xfe9ff06f, 0x0002ae23,
    0x0082a883, 0x000027b7, 0x02f80833, 0xfff78793, 0xfe079ce3, 0x0202a423, 0xf95ff06f, 0x00000073,
];

/// A key of height 10 and w 8.
pub fn draw_key(alloc: Global, rng: &mut ChaCha20Rng) -> Result<KeyFile, AllocError>
    ensures key { IfOk result (λ k. key_data k ≡ key_of rng.old) }
    ensures types { IfOk result (λ k. HasTypes (key_data k)) }
    ensures behind { OnOk result (rng.new ≡ behind_key rng.old) }
{
    let mut id = [0u8; 16];
    id.copy_from_slice(&draw_bytes(alloc, rng, 4)?);
    let mut seed = [0u8; 32];
    seed.copy_from_slice(&draw_bytes(alloc, rng, 8)?);
    Ok(KeyFile {
        lms: 6,
        ots: 4,
        id,
        seed: Digest(seed),
    })
}

/// Adds words, each in little-endian.
fn add_words(bytes: &mut Vec<u8>, words: &[u32]) -> Result<(), AllocError>
    ensures { OnOk result (bytes.new.items ≡ bytes.old.items ++ list_bytes (to_le_bytes w32) words.now) }
{
    for word in words {
        bytes.extend_from_slice(&word.to_le_bytes())?;
    }
    Ok(())
}

/// The image: an executable of the guest and 51,168 drawn words.
#[tactic(auto, unfolding(crate::specs::Nodes::image_of))]
pub fn draw_image(alloc: Global, rng: &mut ChaCha20Rng) -> Result<Vec<u8>, AllocError>
    ensures bytes { IfOk result (λ v. v.items ≡ image_of rng.old) }
    ensures behind { OnOk result (rng.new ≡ behind 51168 rng.old) }
{
    let mut image = Vec::from_slice(alloc, &ELF_FRONT)?;
    add_words(&mut image, &ECHO)?;
    let drawn = draw_bytes(alloc, rng, 51168)?;
    image.extend_from_slice(&drawn)?;
    Ok(image)
}
