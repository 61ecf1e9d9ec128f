ghost use Rattle.std.specs.Prelude.{◌≡◌, ◌<◌, ◌+◌, ◌*◌, ◌∷◌, ℕ, [], map, length, slice_index_or, slice_range};
ghost use Rattle.std.specs.List.{range_with_len};
ghost use Rattle.sha2.specs.Sha256.{compress};
ghost use Rattle.lane_kern.specs.Lanes.{lane};
ghost use Rattle.lane_kern.specs.Leaves.{leaf_block};
ghost use Rattle.sha2.specs.Sha256.{sha256};

use crate::blocks::{absorb, digests, initial};
use std::simd::u32x8;

// The first block of a leaf's text: the byte 0 and the start of the page.
fn first_block(page: &[u8]) -> [u8; 64]
    requires { length page.now ≡ 4096 }
    ensures { result ≡ leaf_block page.now 0 }
{
    let mut block = [0u8; 64];
    block[1..64].copy_from_slice(&page[0..63]);
    block
}

// A block of the page alone.
fn inner_block(page: &[u8], i: usize) -> [u8; 64]
    requires length { length page.now ≡ 4096 }
    requires some { 0 < i }
    requires below { i < 64 }
    ensures { result ≡ leaf_block page.now i }
{
    let mut block = [0u8; 64];
    block.copy_from_slice(&page[64 * i - 1..64 * i + 63]);
    block
}

// The last block: the end of the page and the padding of a text of 4097 bytes.
fn last_block(page: &[u8]) -> [u8; 64]
    requires { length page.now ≡ 4096 }
    ensures { result ≡ leaf_block page.now 64 }
{
    let mut block = [0u8; 64];
    block[0] = page[4095];
    block[1] = 0x80;
    block[56..].copy_from_slice(&32776u64.to_be_bytes());
    block
}

fn block(page: &[u8], i: usize) -> [u8; 64]
    requires length { length page.now ≡ 4096 }
    requires below { i < 65 }
    ensures { result ≡ leaf_block page.now i }
{
    match i {
        0 => first_block(page),
        64 => last_block(page),
        _ => inner_block(page, i),
    }
}

// Block i of the text of page j.
fn block_of(pages: &[u8; 32768], j: usize, i: usize) -> [u8; 64]
    requires page { j < 8 }
    requires below { i < 65 }
    ensures { result ≡ leaf_block (slice_range pages.now (4096 * j) (4096 * j + 4096)) i }
{
    block(&pages[4096 * j..4096 * j + 4096], i)
}

// Block i of each page's text.
fn blocks(pages: &[u8; 32768], i: usize) -> [[u8; 64]; 8]
    requires { i < 65 }
    ensures { (j : ℕ) → j < 8 → slice_index_or result j [] ≡ leaf_block (slice_range pages.now (4096 * j) (4096 * j + 4096)) i }
{
    [
        block_of(pages, 0, i),
        block_of(pages, 1, i),
        block_of(pages, 2, i),
        block_of(pages, 3, i),
        block_of(pages, 4, i),
        block_of(pages, 5, i),
        block_of(pages, 6, i),
        block_of(pages, 7, i),
    ]
}

// The states after block i of each page's text.
fn absorb_pages(state: [u32x8; 8], pages: &[u8; 32768], i: usize) -> [u32x8; 8]
    requires { i < 65 }
    ensures { (j : ℕ) → j < 8 → lane j result ≡ compress (lane j state) (leaf_block (slice_range pages.now (4096 * j) (4096 * j + 4096)) i) }
{
    absorb(state, &blocks(pages, i))
}

/// The leaves of eight neighbouring pages: SHA-256 of the byte 0 and each page.
pub fn leaves_x8(pages: &[u8; 32768]) -> [[u8; 32]; 8]
    ensures { result ≡ map (λ k. sha256 (0 ∷ slice_range pages.now (4096 * k) (4096 * k + 4096))) (range_with_len 0 8) }
{
    let mut state = initial();
    for i in 0..65 {
        let next = absorb_pages(state, pages, i);
        state = next;
    }
    digests(state)
}
