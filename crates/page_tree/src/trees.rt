ghost use Rattle.std.specs.Prelude.{◌≡◌, ◌+◌, ◌*◌, ◌<◌, ◌≤◌, length, replicate, false, IfOk, OnOk, OnErr};
ghost use Rattle.avm_model.specs.Memory.{IsRam};
ghost use Rattle.avm_model.specs.Pages.{sha_hashes, root_of, depth_of};
ghost use Rattle.page_tree.specs.Nodes.{IsTree, IsStale, at, blank, dirty_pages};

use crate::building::build_all;
use crate::hash::PageHash;
use crate::renew::renew_all;
use crate::sha::ShaPages;
use avm_hash::Digest;
use avm_num::NoMemory;
use rv32_mem::Ram;
use std::alloc::Global;
use std::marker::{Brand, Model};
use std::sync::ledger::{Blank, Ledger};

/// The hashes over the pages of a RAM, seen as the list of its nodes.
#[derive(Drop)]
pub struct Tree {
    nodes: Vec<Digest>,
    marks: Vec<bool>,
}

impl Model for Tree {
    ghost use Rattle.std.specs.Prelude.{◌≡◌, ◌<◌, List, length};
    ghost use Rattle.page_tree.specs.Nodes.{at, blank};
    ghost use Rattle.avm_model.specs.declared.Digest.{Digest};

    ghost Value = { List Digest };

    ghost view = { λ t. t.nodes.items };

    ghost invariant = { λ t. record { marks : length t.marks.items ≡ length t.nodes.items; some : 1 < length t.nodes.items; front : at t.nodes.items 0 ≡ blank } };
}

/// Makes all pages clean.
fn clean_all(ram: &mut Ram)
    ensures { ram.new ≡ record ram.old { dirty = replicate (length ram.old.dirty) false } }
{
    for i in 0..ram.pages() {
        ram.clean(i);
    }
}

/// Renews what changed, each node once.
#[tactic(auto, using(crate::proofs::Roots::tree_root, crate::proofs::Costs::cost, avm_model::proofs::PageDepth::some_pages))]
fn refresh_nodes<P: PageHash>(
    nodes: &mut [Digest],
    marks: &mut [bool],
    ram: &mut Ram,
    hasher: &mut P,
)
    requires ram { IsRam ram.old.bytes ram.old.dirty }
    requires marks { length marks.old ≡ length nodes.old }
    requires front { at nodes.old 0 ≡ blank }
    requires stale { IsStale P.hashes ram.old nodes.old }
    ensures tree { IsTree P.hashes ram.new.bytes (length ram.new.dirty) nodes.new }
    ensures ram { ram.new ≡ record ram.old { dirty = replicate (length ram.old.dirty) false } }
    ensures root { at nodes.new 1 ≡ root_of P.hashes ram.old.bytes }
    ensures cost { P.count hasher.new ≤ P.count hasher.old + dirty_pages ram.old.dirty * (depth_of (length ram.old.dirty) + 1) }
{
    marks.fill(false);
    renew_all(nodes, marks, ram, hasher);
    clean_all(ram);
}

/// Makes each node what it is to be, and all pages clean.
#[tactic(auto, using(crate::proofs::Roots::tree_root, avm_model::proofs::PageDepth::some_pages))]
fn build_nodes<P: PageHash>(nodes: &mut [Digest], ram: &mut Ram, hasher: &mut P)
    requires ram { IsRam ram.old.bytes ram.old.dirty }
    requires len { length nodes.old ≡ 2 * length ram.old.dirty }
    requires front { at nodes.old 0 ≡ blank }
    ensures tree { IsTree P.hashes ram.old.bytes (length ram.old.dirty) nodes.new }
    ensures ram { ram.new ≡ record ram.old { dirty = replicate (length ram.old.dirty) false } }
    ensures root { at nodes.new 1 ≡ root_of P.hashes ram.old.bytes }
{
    build_all(nodes, ram, hasher);
    clean_all(ram);
}

/// The tree of a RAM, with a hasher.
#[tactic(auto, using(avm_model::proofs::PageDepth::some_pages))]
fn build_with<P: PageHash>(alloc: Global, ram: &mut Ram, hasher: &mut P) -> Result<Tree, NoMemory>
    requires ram { IsRam ram.old.bytes ram.old.dirty }
    ensures tree { IfOk result (λ t. IsTree P.hashes ram.old.bytes (length ram.old.dirty) t) }
    ensures root { IfOk result (λ t. at t 1 ≡ root_of P.hashes ram.old.bytes) }
    ensures ram { OnOk result (ram.new ≡ record ram.old { dirty = replicate (length ram.old.dirty) false }) }
    ensures refused { OnErr result (ram.new ≡ ram.old) }
{
    let size = 2 * ram.pages() as usize;
    let Ok(mut nodes) = vec![in alloc; Digest([0; 32]); size] else {
        return Err(NoMemory);
    };
    let Ok(marks) = vec![in alloc; false; size] else {
        return Err(NoMemory);
    };
    build_nodes(nodes.as_mut_slice(), ram, hasher);
    Ok(Tree { nodes, marks })
}

/// The tree of a RAM, with a ledger that its caller names.
fn build_counted<L: Ledger>(alloc: Global, ram: &mut Ram, blank: Blank) -> Result<Tree, NoMemory>
    requires name { blank.name ≡ L.name }
    requires parts { blank.parts ≡ L.parts }
    requires some { 0 < L.parts }
    requires ram { IsRam ram.old.bytes ram.old.dirty }
    ensures tree { IfOk result (λ t. IsTree sha_hashes ram.old.bytes (length ram.old.dirty) t) }
    ensures root { IfOk result (λ t. at t 1 ≡ root_of sha_hashes ram.old.bytes) }
    ensures ram { OnOk result (ram.new ≡ record ram.old { dirty = replicate (length ram.old.dirty) false }) }
    ensures refused { OnErr result (ram.new ≡ ram.old) }
{
    let mut hasher = ShaPages::<L>::new(blank);
    build_with(alloc, ram, &mut hasher)
}

impl Tree {
    /// The tree of a RAM under SHA-256. All pages become clean; a refusal leaves the RAM.
    pub fn build(alloc: Global, ram: &mut Ram) -> Result<Tree, NoMemory>
        ensures tree { IfOk result (λ t. IsTree sha_hashes ram.old.bytes (length ram.old.dirty) t) }
        ensures root { IfOk result (λ t. at t 1 ≡ root_of sha_hashes ram.old.bytes) }
        ensures ram { OnOk result (ram.new ≡ record ram.old { dirty = replicate (length ram.old.dirty) false }) }
        ensures refused { OnErr result (ram.new ≡ ram.old) }
    {
        let _pages = ram.pages();
        build_counted::<Brand>(alloc, ram, Blank::new(1))
    }

    /// Makes a tree that of the RAM again, and all pages clean: each node once, and only those over dirty pages.
    pub fn refresh<P: PageHash>(&mut self, ram: &mut Ram, hasher: &mut P)
        requires stale { IsStale P.hashes ram.old self.old }
        ensures tree { IsTree P.hashes ram.new.bytes (length ram.new.dirty) self.new }
        ensures ram { ram.new ≡ record ram.old { dirty = replicate (length ram.old.dirty) false } }
        ensures root { at self.new 1 ≡ root_of P.hashes ram.old.bytes }
        ensures cost { P.count hasher.new ≤ P.count hasher.old + dirty_pages ram.old.dirty * (depth_of (length ram.old.dirty) + 1) }
    {
        let _pages = ram.pages();
        refresh_nodes(
            self.nodes.as_mut_slice(),
            self.marks.as_mut_slice(),
            ram,
            hasher,
        );
    }

    /// The root: place 1.
    pub fn root(&self) -> Digest
        ensures { result ≡ at self.now 1 }
    {
        self.nodes[1]
    }

    /// All nodes: 32 zero bytes at place 0, the root at place 1, the children of place i at 2i and 2i + 1, and the leaves
    /// in page order from the page count on.
    pub fn nodes(&self) -> &[Digest]
        ensures value { result.now ≡ self.now }
        ensures front { at self.now 0 ≡ blank }
    {
        self.nodes.as_slice()
    }
}
