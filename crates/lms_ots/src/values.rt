ghost use Rattle.std.specs.Prelude.{◌≡◌, ◌≤◌, ◌<◌, ◌+◌, ◌*◌, ◌-◌, ◌^◌, ℕ, take, drop, length, slice_index};
ghost use Rattle.avm_model.specs.LmsTypes.{IsOts, chains_of};
ghost use Rattle.avm_model.specs.LmsDigits.{coef};
ghost use Rattle.avm_model.specs.LmsOts.{head_of, secret, end_of, shown_of, reached_of, compressed, joined, piece_of};
ghost use Rattle.avm_num.specs.Room.{with_bytes, left};
ghost use Rattle.lms_ots.specs.Buffer.{IsWidth};
ghost use Rattle.lms_ots.specs.Chains.{text_at, IsAt};

use crate::buffer::{put_text, value};
use crate::digits::coef_at;
use crate::running::{Places, Texts, run};
use crate::types::{chains, last_step, width};
use avm_hash::{Digest, Hasher};
use avm_num::Room;

/// The same step for each chain.
pub fn everywhere(step: usize) -> Places
    ensures { (i : ℕ) → i < 265 → slice_index result i ≡ step }
{
    [step; 265]
}

/// The texts of the first p chains at the seed.
fn seeds(base: &[u8; 20], seed: &[u8; 32], p: usize) -> Texts
    requires { p ≤ 265 }
    ensures { (i : ℕ) → i < p → IsAt (head_of base.now i) seed.now (text_at result i) }
{
    let mut texts = [[0u8; 55]; 265];
    for i in 0..p {
        put_text(&mut texts[i], base, i as u16, seed);
    }
    texts
}

/// The texts of the first p chains at their private values.
fn secrets(base: &[u8; 20], seed: &[u8; 32], p: usize) -> Texts
    requires { p ≤ 265 }
    ensures { (i : ℕ) → i < p → IsAt (head_of base.now i) (secret base.now i seed.now) (text_at result i) }
{
    let mut texts = seeds(base, seed, p);
    run(&mut texts, &everywhere(255), &everywhere(256), p);
    texts
}

/// 32 bytes at a place.
pub fn piece(bytes: &[u8], at: usize) -> &[u8]
    requires { at + 32 ≤ length bytes.now }
    ensures value { result.now ≡ take 32 (drop at bytes.now) }
    ensures length { length result.now ≡ 32 }
{
    &bytes[at..at + 32]
}

/// The texts of the first p chains at the values that a signature shows.
fn pieces(base: &[u8; 20], sig: &[u8], p: usize) -> Texts
    requires few { p ≤ 265 }
    requires exact { length sig.now ≡ 36 + 32 * p }
    ensures { (i : ℕ) → i < p → IsAt (head_of base.now i) (piece_of sig.now i) (text_at result i) }
{
    let mut texts = [[0u8; 55]; 265];
    for i in 0..p {
        put_text(&mut texts[i], base, i as u16, piece(sig, 36 + 32 * i));
    }
    texts
}

/// The digits of Q and its checksum, a step for each of the first p chains.
fn digits(signed: &[u8; 34], p: usize, w: usize) -> Places
    requires few { p ≤ 265 }
    requires width { IsWidth w }
    requires within { p * w ≤ 272 }
    ensures value { (i : ℕ) → i < p → slice_index result i ≡ coef signed.now i w }
    ensures small { (i : ℕ) → i < 265 → slice_index result i ≤ 2 ^ w - 1 }
{
    let mut all = [0; 265];
    for i in 0..p {
        all[i] = coef_at(signed, i, w);
    }
    all
}

/// The texts of all chains at their ends.
pub fn ends(ots: u32, base: &[u8; 20], seed: &[u8; 32]) -> Texts
    requires { IsOts ots }
    ensures { (i : ℕ) → i < chains_of ots → drop 23 (text_at result i) ≡ end_of ots base.now seed.now i }
{
    let p = chains(ots);
    let mut texts = secrets(base, seed, p);
    run(&mut texts, &everywhere(0), &everywhere(last_step(ots)), p);
    texts
}

/// The texts of all chains at what a signature shows of them, by the digits of Q and its checksum.
pub fn shown(ots: u32, base: &[u8; 20], seed: &[u8; 32], signed: &[u8; 34]) -> Texts
    requires { IsOts ots }
    ensures { (i : ℕ) → i < chains_of ots → drop 23 (text_at result i) ≡ shown_of ots base.now seed.now signed.now i }
{
    let p = chains(ots);
    let to = digits(signed, p, width(ots));
    let mut texts = secrets(base, seed, p);
    run(&mut texts, &everywhere(0), &to, p);
    texts
}

/// The texts of all chains at their ends, from what a signature shows of them.
pub fn reached(ots: u32, base: &[u8; 20], signed: &[u8; 34], sig: &[u8]) -> Texts
    requires ots_type { IsOts ots }
    requires exact { length sig.now ≡ 36 + 32 * chains_of ots }
    ensures { (i : ℕ) → i < chains_of ots → drop 23 (text_at result i) ≡ reached_of ots base.now signed.now sig.now i }
{
    let p = chains(ots);
    let from = digits(signed, p, width(ots));
    let mut texts = pieces(base, sig, p);
    run(&mut texts, &from, &everywhere(last_step(ots)), p);
    texts
}

/// Writes the values of the first p chains.
pub fn put_values(out: &mut Room, texts: &Texts, p: usize)
    requires few { p ≤ 265 }
    requires room { 32 * p ≤ left out.old }
    ensures left { left out.new + 32 * p ≡ left out.old }
    ensures value { out.new ≡ with_bytes out.old (joined (λ i. drop 23 (text_at texts.now i)) p) }
{
    for i in 0..p {
        out.put(value(&texts[i]));
    }
}

/// K, of the ends of all chains.
pub fn compressed(ots: u32, base: &[u8; 20], texts: &Texts) -> Digest
    requires { IsOts ots }
    ensures { result.0 ≡ compressed ots base.now (λ i. drop 23 (text_at texts.now i)) }
{
    let mut hasher = Hasher::new();
    hasher.update(base);
    hasher.update(&[128, 128]);
    for i in 0..chains(ots) {
        hasher.update(value(&texts[i]));
    }
    hasher.finish()
}
