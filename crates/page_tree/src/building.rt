ghost use Rattle.std.specs.Prelude.{◌≡◌, ◌+◌, ◌*◌, ◌<◌, ◌≤◌, ℕ, IsTrue, length, replicate};
ghost use Rattle.avm_model.specs.Pages.{page_of};
ghost use Rattle.page_tree.specs.Nodes.{due, at, blank, IsTree, Building};

use crate::hash::PageHash;
use crate::places::{eight_pages, hash_of};
use avm_hash::Digest;
use rv32_mem::Ram;

/// Whether none of eight neighbouring pages is all zeros.
fn are_filled(ram: &Ram, first: usize) -> bool
    requires { first + 8 ≤ length ram.now.dirty }
    ensures { IsTrue result → (k : ℕ) → k < 8 → page_of ram.now.bytes (first + k) ≡ replicate 4096 0 → ⊥ }
{
    let _pages = ram.pages();
    for k in 0..8 {
        if ram.is_zero((first + k) as u32) {
            return false;
        }
    }
    true
}

/// What a node is to be. The leaf of a page of zeros is known, and not hashed again.
fn built<P: PageHash>(
    nodes: &[Digest],
    ram: &Ram,
    hasher: &mut P,
    zero: &Digest,
    place: usize,
) -> Digest
    requires inside { place < 2 * length ram.now.dirty }
    requires nodes { length nodes.now ≡ 2 * length ram.now.dirty }
    requires zero { zero.now ≡ P.hashes.leaf (replicate 4096 0) }
    ensures { result ≡ due P.hashes ram.now.bytes (length ram.now.dirty) nodes.now place }
{
    let pages = ram.pages() as usize;
    if place >= pages && ram.is_zero((place - pages) as u32) {
        return *zero;
    }
    hash_of(nodes, ram, hasher, place)
}

/// Makes the leaves of eight neighbouring pages at once, and tells the place of the first.
fn build_eight<P: PageHash>(nodes: &mut [Digest], ram: &Ram, hasher: &mut P, first: usize) -> usize
    requires inside { first + 8 ≤ length ram.now.dirty }
    requires building { Building P.hashes ram.now.bytes (length ram.now.dirty) nodes.old (length ram.now.dirty + first + 8) }
    ensures place { result ≡ length ram.now.dirty + first }
    ensures building { Building P.hashes ram.now.bytes (length ram.now.dirty) nodes.new result }
{
    let leaves = hasher.leaves(eight_pages(ram, first));
    let start = ram.pages() as usize + first;
    for k in 0..8 {
        nodes[start + 7 - k] = leaves[7 - k];
    }
    start
}

/// Makes one node, or the leaves of eight neighbouring pages, and tells the place of the last.
fn build_some<P: PageHash>(
    nodes: &mut [Digest],
    ram: &Ram,
    hasher: &mut P,
    zero: &Digest,
    place: usize,
) -> usize
    requires above { 1 < place }
    requires zero { zero.now ≡ P.hashes.leaf (replicate 4096 0) }
    requires building { Building P.hashes ram.now.bytes (length ram.now.dirty) nodes.old place }
    ensures some { 0 < result }
    ensures below { result < place }
    ensures building { Building P.hashes ram.now.bytes (length ram.now.dirty) nodes.new result }
{
    let pages = ram.pages() as usize;
    if place >= pages + 8 && are_filled(ram, place - pages - 8) {
        return build_eight(nodes, ram, hasher, place - pages - 8);
    }
    nodes[place - 1] = built(nodes, ram, hasher, zero, place - 1);
    place - 1
}

/// Makes each node what it is to be. The leaf of a page of zeros is hashed once.
pub fn build_all<P: PageHash>(nodes: &mut [Digest], ram: &Ram, hasher: &mut P)
    requires pages { 0 < length ram.now.dirty }
    requires len { length nodes.old ≡ 2 * length ram.now.dirty }
    requires front { at nodes.old 0 ≡ blank }
    ensures { IsTree P.hashes ram.now.bytes (length ram.now.dirty) nodes.new }
{
    let zero = hasher.leaf(&[0; 4096]);
    let mut place = nodes.len();
    while place > 1 {
        place = build_some(nodes, ram, hasher, &zero, place);
    }
}
