ghost use Rattle.std.specs.Prelude.{◌≡◌, ◌+◌, ℕ};
ghost use Rattle.avm_model.specs.Pages.{Hashes};
ghost use Rattle.page_tree.specs.Nodes.{leaves_from};

use avm_hash::Digest;

/// What hashes the pages of a tree, and counts its hashes. Its meaning is two functions, `hashes`, and a count.
pub trait PageHash {
    ghost hashes: { Hashes };

    ghost count: { Self → ℕ };

    /// The leaf of a page.
    fn leaf(&mut self, page: &[u8; 4096]) -> Digest
        ensures value { result ≡ hashes.leaf page.now }
        ensures count { count self.new ≡ count self.old + 1 };

    /// The leaves of eight neighbouring pages.
    fn leaves(&mut self, pages: &[u8; 32768]) -> [Digest; 8]
        ensures value { result ≡ leaves_from hashes pages.now 0 8 }
        ensures count { count self.new ≡ count self.old + 8 };

    /// The node over two digests.
    fn node(&mut self, left: &Digest, right: &Digest) -> Digest
        ensures value { result ≡ hashes.node left.now right.now }
        ensures count { count self.new ≡ count self.old + 1 };
}
