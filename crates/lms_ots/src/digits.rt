ghost use Rattle.std.specs.Prelude.{◌≡◌, ◌≤◌, ◌<◌, ◌*◌, ◌^◌, ◌++◌, length};
ghost use Rattle.avm_model.specs.LmsTypes.{IsOts};
ghost use Rattle.avm_model.specs.LmsDigits.{coef, checksum, marked};
ghost use Rattle.lms_ots.specs.Buffer.{IsWidth};

use crate::types::{shift, width};

/// Digit i of the bytes, at w bits a digit (RFC 8554, section 3.1.3).
#[tactic(auto, unfolding(avm_model::specs::LmsDigits::coef))]
pub fn coef_at(bytes: &[u8], i: usize, w: usize) -> usize
    requires width { IsWidth w }
    requires within { i * w < 8 * length bytes.now }
    requires few { i < 2 ^ 16 }
    ensures value { result ≡ coef bytes.now i w }
    ensures small { result < 2 ^ w }
{
    let byte = bytes[i * w / 8] as usize;
    let shift = 8 - (w * (i % (8 / w)) + w);
    (byte >> shift) % (1 << w)
}

/// The checksum of a digest (RFC 8554, section 4.4, algorithm 2).
#[tactic(auto, unfolding(avm_model::specs::LmsDigits::checksum))]
pub fn checksum_of(ots: u32, bytes: &[u8; 32]) -> u16
    requires { IsOts ots }
    ensures { result ≡ checksum ots bytes.now }
{
    let w = width(ots);
    let mut sum = 0u32;
    for i in 0..256 / w {
        sum += ((1 << w) - 1 - coef_at(bytes, i, w)) as u32;
    }
    ((sum << shift(ots)) % 65536) as u16
}

/// The digest and its checksum.
pub fn marked_of(ots: u32, bytes: &[u8; 32]) -> [u8; 34]
    requires { IsOts ots }
    ensures { result ≡ marked ots bytes.now }
{
    let mut all = [0u8; 34];
    all[..32].copy_from_slice(bytes);
    all[32..].copy_from_slice(&checksum_of(ots, bytes).to_be_bytes());
    all
}
