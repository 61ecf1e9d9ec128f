//! A RAM that keeps change one after another.

ghost use Rattle.std.specs.Prelude.{◌≡◌, ◌<◌, true, length, List};
ghost use Rattle.avm_num.specs.Walk.{items_of};
ghost use Rattle.avm_model.specs.Memory.{put_page};
ghost use Rattle.avm_model.specs.Pages.{Hashes, page_root, sha_hashes};
ghost use Rattle.avm_model.specs.declared.Digest.{Digest as DigestData};
ghost use Rattle.honest_model.specs.Keeps.{with_pages};
ghost use Rattle.journal_model.specs.Journal.{pages_ascend};
ghost use Rattle.journal_model.specs.Part.{page_at};
ghost use Rattle.page_tree.specs.Nodes.{IsStale};

use avm_hash::Digest;
use avm_num::View;
use jrnl_part::{Page, take_page};
use page_tree::{ShaPages, Tree};
use rv32_mem::Ram;
use std::marker::Brand;
use std::sync::ledger::{Blank, Ledger};

/// A RAM, and the tree of its pages, in which only leaves of dirty pages may be stale.
#[derive(Drop)]
pub struct Paged {
    pub ram: Ram,
    pub tree: Tree,
    pub ghost stale: { IsStale sha_hashes ram tree },
}

/// The bytes as a page.
fn as_page(bytes: &[u8]) -> &[u8; 4096]
    requires { length bytes.now ≡ 4096 }
    ensures { result.now ≡ bytes.now }
{
    match bytes.try_into() {
        Ok(page) => page,
        Err(_) => unreachable!(),
    }
}

/// Puts a page of a keep in its place.
#[tactic(auto, using(page_tree::proofs::Kept::put_stale))]
fn put(ram: &mut Ram, page: &Page<'_>)
    requires { length page.now.bytes.now ≡ 4096 }
    ensures bytes { page.now.number < length ram.old.dirty → ram.new.bytes ≡ put_page ram.old.bytes page.now.number page.now.bytes.now }
    ensures count { length ram.new.dirty ≡ length ram.old.dirty }
    ensures stale { (h : Hashes) (nodes : List DigestData) → IsStale h ram.old nodes → IsStale h ram.new nodes }
{
    if page.number < ram.pages() {
        ram.set_page(page.number, as_page(page.bytes));
    }
}

/// Puts the pages of a keep in their places.
fn patch(ram: &mut Ram, pages: &[u8])
    ensures bytes { pages_ascend 0 (length ram.old.dirty) (items_of page_at pages.now) ≡ true → ram.new.bytes ≡ with_pages ram.old.bytes (items_of page_at pages.now) }
    ensures count { length ram.new.dirty ≡ length ram.old.dirty }
    ensures stale { (h : Hashes) (nodes : List DigestData) → IsStale h ram.old nodes → IsStale h ram.new nodes }
{
    let mut view = View::new(pages);
    while let Some(page) = take_page(&mut view) {
        put(ram, &page);
    }
}

/// The page root, with a ledger for the count of hashes.
#[tactic(auto, unfolding(avm_model::specs::Pages::page_root), using(page_tree::proofs::Kept::tree_stale))]
fn root_counted<L: Ledger>(ram: &mut Ram, tree: &mut Tree, blank: Blank) -> Digest
    requires name { blank.name ≡ L.name }
    requires parts { blank.parts ≡ L.parts }
    requires some { 0 < L.parts }
    requires stale { IsStale sha_hashes ram.old tree.old }
    ensures root { result.0 ≡ page_root ram.old.bytes }
    ensures bytes { ram.new.bytes ≡ ram.old.bytes }
    ensures count { length ram.new.dirty ≡ length ram.old.dirty }
    ensures stale { IsStale sha_hashes ram.new tree.new }
{
    let mut hasher = ShaPages::<L>::new(blank);
    tree.refresh(ram, &mut hasher);
    tree.root()
}

impl Paged {
    /// Puts the pages of a keep in their places, and tells the page root then.
    pub fn keep(&mut self, pages: &[u8]) -> Digest
        ensures bytes { pages_ascend 0 (length self.old.ram.dirty) (items_of page_at pages.now) ≡ true → self.new.ram.bytes ≡ with_pages self.old.ram.bytes (items_of page_at pages.now) }
        ensures root { result.0 ≡ page_root self.new.ram.bytes }
        ensures count { length self.new.ram.dirty ≡ length self.old.ram.dirty }
    {
        patch(&mut self.ram, pages);
        root_counted::<Brand>(&mut self.ram, &mut self.tree, Blank::new(1))
    }
}
