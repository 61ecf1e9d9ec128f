ghost use Rattle.std.specs.Prelude.{◌≡◌, ◌+◌, ◌*◌, ◌<◌, ◌≤◌, ◌-◌, ℕ, IsTrue, true, get_or, length, replicate, false, slice_set, if◌then◌else◌};
ghost use Rattle.page_tree.specs.Nodes.{due, touched, marked, at, blank, IsTree, IsStale, AreMarks, Renewing};
ghost use Rattle.avm_model.specs.Basics.{flag};

use crate::hash::PageHash;
use crate::places::{eight_pages, hash_of};
use avm_hash::Digest;
use rv32_mem::Ram;

/// Whether a node may be stale.
fn is_touched(ram: &Ram, marks: &[bool], place: usize) -> bool
    requires inside { place < 2 * length ram.now.dirty }
    requires marks { length marks.now ≡ 2 * length ram.now.dirty }
    ensures { result ≡ touched ram.now.dirty marks.now place }
{
    let pages = ram.pages() as usize;
    if place < pages {
        marks[2 * place] || marks[2 * place + 1]
    } else {
        ram.dirty((place - pages) as u32)
    }
}

/// Makes a node what it is to be, if it may be stale.
fn renew<P: PageHash>(
    nodes: &mut [Digest],
    marks: &mut [bool],
    ram: &Ram,
    hasher: &mut P,
    place: usize,
)
    requires inside { place < 2 * length ram.now.dirty }
    requires nodes { length nodes.old ≡ 2 * length ram.now.dirty }
    requires marks { length marks.old ≡ 2 * length ram.now.dirty }
    ensures nodes { nodes.new ≡ (if touched ram.now.dirty marks.old place then slice_set nodes.old place (due P.hashes ram.now.bytes (length ram.now.dirty) nodes.old place) else nodes.old) }
    ensures marks { marks.new ≡ slice_set marks.old place (touched ram.now.dirty marks.old place) }
    ensures count { P.count hasher.new ≡ P.count hasher.old + flag (touched ram.now.dirty marks.old place) }
{
    let stale = is_touched(ram, marks, place);
    if stale {
        nodes[place] = hash_of(nodes, ram, hasher, place);
    }
    marks[place] = stale;
}

/// Renews the last node that was not, if it may be stale, and tells its place.
fn renew_one<P: PageHash>(
    nodes: &mut [Digest],
    marks: &mut [bool],
    ram: &Ram,
    hasher: &mut P,
    place: usize,
) -> usize
    requires above { 1 < place }
    requires renewing { Renewing P.hashes ram.now nodes.old marks.old place }
    ensures some { 0 < result }
    ensures below { result < place }
    ensures renewing { Renewing P.hashes ram.now nodes.new marks.new result }
    ensures count { (start : ℕ) → P.count hasher.old ≡ start + marked marks.old place (2 * length ram.now.dirty - place) → P.count hasher.new ≡ start + marked marks.new result (2 * length ram.now.dirty - result) }
{
    renew(nodes, marks, ram, hasher, place - 1);
    place - 1
}

/// Whether eight neighbouring pages are dirty.
fn are_dirty(ram: &Ram, first: usize) -> bool
    requires { first + 8 ≤ length ram.now.dirty }
    ensures { IsTrue result → (k : ℕ) → k < 8 → get_or ram.now.dirty (first + k) false ≡ true }
{
    let _pages = ram.pages();
    for k in 0..8 {
        if !ram.dirty((first + k) as u32) {
            return false;
        }
    }
    true
}

/// Renews the leaves of eight neighbouring dirty pages at once, and tells the place of the first.
fn renew_eight<P: PageHash>(
    nodes: &mut [Digest],
    marks: &mut [bool],
    ram: &Ram,
    hasher: &mut P,
    first: usize,
) -> usize
    requires inside { first + 8 ≤ length ram.now.dirty }
    requires dirty { (k : ℕ) → k < 8 → get_or ram.now.dirty (first + k) false ≡ true }
    requires renewing { Renewing P.hashes ram.now nodes.old marks.old (length ram.now.dirty + first + 8) }
    ensures place { result ≡ length ram.now.dirty + first }
    ensures renewing { Renewing P.hashes ram.now nodes.new marks.new result }
    ensures count { (start : ℕ) → P.count hasher.old ≡ start + marked marks.old (result + 8) (2 * length ram.now.dirty - (result + 8)) → P.count hasher.new ≡ start + marked marks.new result (2 * length ram.now.dirty - result) }
{
    let leaves = hasher.leaves(eight_pages(ram, first));
    let start = ram.pages() as usize + first;
    for k in 0..8 {
        nodes[start + 7 - k] = leaves[7 - k];
        marks[start + 7 - k] = true;
    }
    start
}

/// Renews one node, or the leaves of eight neighbouring dirty pages, and tells the place of the last.
fn renew_some<P: PageHash>(
    nodes: &mut [Digest],
    marks: &mut [bool],
    ram: &Ram,
    hasher: &mut P,
    place: usize,
) -> usize
    requires above { 1 < place }
    requires renewing { Renewing P.hashes ram.now nodes.old marks.old place }
    ensures some { 0 < result }
    ensures below { result < place }
    ensures renewing { Renewing P.hashes ram.now nodes.new marks.new result }
    ensures count { (start : ℕ) → P.count hasher.old ≡ start + marked marks.old place (2 * length ram.now.dirty - place) → P.count hasher.new ≡ start + marked marks.new result (2 * length ram.now.dirty - result) }
{
    let pages = ram.pages() as usize;
    if place >= pages + 8 && are_dirty(ram, place - pages - 8) {
        return renew_eight(nodes, marks, ram, hasher, place - pages - 8);
    }
    renew_one(nodes, marks, ram, hasher, place)
}

/// Renews each node that may be stale, once.
pub fn renew_all<P: PageHash>(nodes: &mut [Digest], marks: &mut [bool], ram: &Ram, hasher: &mut P)
    requires pages { 0 < length ram.now.dirty }
    requires front { at nodes.old 0 ≡ blank }
    requires stale { IsStale P.hashes ram.now nodes.old }
    requires marks { marks.old ≡ replicate (2 * length ram.now.dirty) false }
    ensures tree { IsTree P.hashes ram.now.bytes (length ram.now.dirty) nodes.new }
    ensures marks { AreMarks ram.now.dirty marks.new }
    ensures count { P.count hasher.new ≡ P.count hasher.old + marked marks.new 1 (2 * length ram.now.dirty - 1) }
{
    let mut place = nodes.len();
    while place > 1 {
        place = renew_some(nodes, marks, ram, hasher, place);
    }
}
