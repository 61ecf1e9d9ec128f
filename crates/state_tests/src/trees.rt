ghost use Rattle.std.specs.Prelude.{◌≡◌, ◌<◌, IfSome};
ghost use Rattle.avm_model.specs.Pages.{sha_hashes};
ghost use Rattle.page_tree.specs.Nodes.{IsStale};

use avm_hash::Digest;
use page_tree::{PageHash, ShaPages, Tree};
use rv32_mem::Ram;
use std::alloc::Global;
use std::marker::Brand;
use std::rt::HostRuntime;
use std::sync::ledger::{Blank, Ledger};

/// Counts, when it runs, the hashes that it makes.
#[derive(Drop)]
struct Counting<L: Ledger> {
    inner: ShaPages<L>,
    made: u64,
}

impl<L: Ledger> PageHash for Counting<L> {
    ghost hashes = { sha_hashes };

    ghost count = { λ c. c.inner.steps };

    fn leaf(&mut self, page: &[u8; 4096]) -> Digest {
        self.made = self.made.wrapping_add(1);
        self.inner.leaf(page)
    }

    fn leaves(&mut self, pages: &[u8; 32768]) -> [Digest; 8] {
        self.made = self.made.wrapping_add(8);
        self.inner.leaves(pages)
    }

    fn node(&mut self, left: &Digest, right: &Digest) -> Digest {
        self.made = self.made.wrapping_add(1);
        self.inner.node(left, right)
    }
}

/// A RAM whose page f is filled with the byte 7f + 1.
fn filled(alloc: Global, pages: u32) -> Option<Ram> {
    if pages == 0 || 4096 % pages != 0 {
        return None;
    }
    let mut ram = Ram::new(alloc, pages).ok()?;
    for f in 0..pages {
        if f < ram.pages() {
            let byte = (f % 256 * 7 + 1) % 256;
            ram.set_page(f, &[byte as u8; 4096]);
        }
    }
    Some(ram)
}

/// Fills a page with the byte 200.
fn touch(ram: &mut Ram, tree: &Tree, page: u32)
    requires stale { IsStale sha_hashes ram.old tree.now }
    ensures { IsStale sha_hashes ram.new tree.now }
{
    if page < ram.pages() {
        ram.set_page(page, &[200; 4096]);
    }
}

/// Fills neighbouring pages with the byte 200.
fn touch_all(ram: &mut Ram, tree: &Tree, first: u32, past: u32)
    requires stale { IsStale sha_hashes ram.old tree.now }
    ensures { IsStale sha_hashes ram.new tree.now }
{
    for page in first..past {
        touch(ram, tree, page);
    }
}

/// The hashes of three renewals and the roots of the first and the last: of two pages, of none, and of ten neighbours.
#[tactic(auto, using(page_tree::proofs::Kept::tree_stale))]
fn renewed<L: Ledger>(alloc: Global, blank: Blank) -> Option<((u64, u64, u64), Digest, Digest)>
    requires name { blank.name ≡ L.name }
    requires parts { blank.parts ≡ L.parts }
    requires some { 0 < L.parts }
{
    let mut ram = filled(alloc, 256)?;
    let mut tree = Tree::build(alloc, &mut ram).ok()?;
    let mut hasher = Counting::<L> {
        inner: ShaPages::new(blank),
        made: 0,
    };
    touch(&mut ram, &tree, 3);
    touch(&mut ram, &tree, 255);
    tree.refresh(&mut ram, &mut hasher);
    let first = hasher.made;
    let root = tree.root();
    tree.refresh(&mut ram, &mut hasher);
    let second = hasher.made.wrapping_sub(first);
    touch_all(&mut ram, &tree, 41, 51);
    hasher.made = 0;
    tree.refresh(&mut ram, &mut hasher);
    Some(((first, second, hasher.made), root, tree.root()))
}

#[test]
fn roots_are_those_of_an_independent_program(rt: HostRuntime) {
    let rows: [(u32, [u8; 32]); 4] = [
        (
            1,
            [
                0x1f, 0x85, 0xfd, 0x40, 0xee, 0xc4, 0xea, 0x48, 0xb7, 0x18, 0xbd, 0xe6, 0x93, 0xb3,
                0x9b, 0xca, 0xe4, 0x78, 0x3e, 0x9c, 0xa8, 0xca, 0xb8, 0x89, 0x67, 0xd6, 0xc6, 0x5c,
                0x5f, 0x28, 0xd6, 0x03,
            ],
        ),
        (
            2,
            [
                0x2f, 0xa9, 0x43, 0x76, 0xa3, 0xa8, 0x80, 0xf0, 0x08, 0x02, 0xf6, 0xfa, 0x6f, 0x38,
                0x17, 0x99, 0x84, 0x96, 0xb9, 0x3b, 0xdf, 0xaf, 0x5a, 0xed, 0x7b, 0x10, 0xbf, 0x21,
                0x36, 0x3b, 0x91, 0xd3,
            ],
        ),
        (
            8,
            [
                0x32, 0x66, 0xe6, 0x1d, 0x43, 0x84, 0xec, 0xb4, 0xd0, 0xde, 0x1e, 0x97, 0x57, 0x48,
                0x7d, 0x6a, 0x06, 0xd2, 0x12, 0x1b, 0x79, 0xd7, 0x01, 0x56, 0xda, 0x90, 0x76, 0xe4,
                0xc9, 0x6c, 0xf6, 0x5c,
            ],
        ),
        (
            256,
            [
                0x8b, 0xce, 0xba, 0x04, 0x2e, 0x8e, 0xad, 0xea, 0xa3, 0x41, 0x35, 0x9c, 0x68, 0xe7,
                0x66, 0x42, 0x88, 0x51, 0x8d, 0xdb, 0x54, 0x69, 0x3e, 0x17, 0x34, 0x07, 0xed, 0x47,
                0x78, 0x1d, 0xbb, 0xa3,
            ],
        ),
    ];
    for (pages, want) in rows {
        let Some(mut ram) = filled(rt.alloc(), pages) else {
            assert!(&rt; false);
            return;
        };
        let Ok(tree) = Tree::build(rt.alloc(), &mut ram) else {
            assert!(&rt; false);
            return;
        };
        assert!(&rt; tree.root() == Digest(want), "{pages} pages");
        assert!(&rt; tree.nodes().len() == 2 * pages as usize);
    }
}

#[test]
fn a_renewal_hashes_what_changed_alone(rt: HostRuntime) {
    let Some(((two, none, ten), first, last)) = renewed::<Brand>(rt.alloc(), Blank::new(1)) else {
        assert!(&rt; false);
        return;
    };
    assert!(&rt; two > 0 && two <= 18 && none == 0 && ten == 27);
    let want_first = [
        0x58, 0xf0, 0x1d, 0x38, 0x7a, 0x57, 0x6a, 0x0a, 0xd2, 0xe1, 0xdf, 0x55, 0xf1, 0x50, 0xb1,
        0x7a, 0xab, 0xd4, 0x1d, 0xcc, 0xeb, 0x35, 0x0c, 0xd0, 0xc8, 0x55, 0x11, 0xd0, 0x03, 0x92,
        0x7c, 0xb1,
    ];
    let want_last = [
        0xe7, 0x3e, 0x27, 0x34, 0x1e, 0x58, 0xe2, 0x2d, 0x06, 0x3b, 0xfb, 0x4e, 0x58, 0xd1, 0x1e,
        0x9c, 0xe4, 0xe3, 0x82, 0x7a, 0xc5, 0x3c, 0xa2, 0xf0, 0xe2, 0xab, 0x0d, 0xaa, 0x0d, 0x5f,
        0xe3, 0x07,
    ];
    assert!(&rt; first == Digest(want_first) && last == Digest(want_last));
}
