ghost use Rattle.std.specs.Prelude.{◌≡◌, ◌+◌, ◌*◌, ◌<◌, ◌≤◌, ℕ, length};
ghost use Rattle.avm_model.specs.Pages.{page_of};
ghost use Rattle.page_tree.specs.Nodes.{due};

use crate::hash::PageHash;
use avm_hash::Digest;
use rv32_mem::Ram;

/// What a node is to be.
pub fn hash_of<P: PageHash>(nodes: &[Digest], ram: &Ram, hasher: &mut P, place: usize) -> Digest
    requires inside { place < 2 * length ram.now.dirty }
    requires nodes { length nodes.now ≡ 2 * length ram.now.dirty }
    ensures value { result ≡ due P.hashes ram.now.bytes (length ram.now.dirty) nodes.now place }
    ensures count { P.count hasher.new ≡ P.count hasher.old + 1 }
{
    let pages = ram.pages() as usize;
    if place < pages {
        hasher.node(&nodes[2 * place], &nodes[2 * place + 1])
    } else {
        hasher.leaf(ram.page((place - pages) as u32))
    }
}

/// The bytes as eight pages.
fn as_eight(bytes: &[u8]) -> &[u8; 32768]
    requires { length bytes.now ≡ 32768 }
    ensures { result.now ≡ bytes.now }
{
    match bytes.try_into() {
        Ok(pages) => pages,
        Err(_) => unreachable!(),
    }
}

/// Eight neighbouring pages.
pub fn eight_pages(ram: &Ram, first: usize) -> &[u8; 32768]
    requires { first + 8 ≤ length ram.now.dirty }
    ensures { (k : ℕ) → k < 8 → page_of result.now k ≡ page_of ram.now.bytes (first + k) }
{
    as_eight(&ram.bytes()[4096 * first..4096 * first + 32768])
}
