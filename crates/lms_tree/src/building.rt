ghost use Rattle.std.specs.Prelude.{◌≡◌, ◌≤◌, ◌<◌, ◌+◌, ◌-◌, ◌*◌, ◌^◌, ℕ, length};
ghost use Rattle.avm_model.specs.LmsTypes.{IsLms, IsOts, height_of};
ghost use Rattle.avm_model.specs.LmsOts.{ots_public};
ghost use Rattle.avm_model.specs.LmsTree.{leaf, inner};
ghost use Rattle.lms_tree.specs.Key.{node_at, AreNodes};

use crate::nodes::{inner_node, leaf_count, leaf_node};
use avm_hash::Digest;

/// Writes the leaves.
pub fn fill_leaves(nodes: &mut [Digest], count: usize, ots: u32, id: &[u8; 16], seed: &Digest)
    requires ots_type { IsOts ots }
    requires length { length nodes.old ≡ 2 * count }
    requires few { count ≤ 2 ^ 15 }
    ensures { (r : ℕ) → count ≤ r → r < 2 * count → node_at nodes.new r ≡ leaf id.now r (ots_public ots id.now (r - count) seed.now.0) }
{
    for q in 0..count {
        let key = lms_ots::public(ots, id, q as u32, seed);
        nodes[count + q] = leaf_node(id, (count + q) as u32, &key);
    }
}

/// Writes the inner nodes, over the leaves.
pub fn fill_inner(nodes: &mut [Digest], count: usize, id: &[u8; 16])
    requires length { length nodes.old ≡ 2 * count }
    requires few { count ≤ 2 ^ 15 }
    ensures leaves { (r : ℕ) → count ≤ r → node_at nodes.new r ≡ node_at nodes.old r }
    ensures inner { (r : ℕ) → 1 ≤ r → r < count → node_at nodes.new r ≡ inner id.now r (node_at nodes.new (2 * r)) (node_at nodes.new (2 * r + 1)) }
{
    for i in 1..count {
        let r = count - i;
        let left = nodes[2 * r];
        let right = nodes[2 * r + 1];
        nodes[r] = inner_node(id, r as u32, &left.0, &right.0);
    }
}

/// Writes all nodes of a key.
pub fn fill(nodes: &mut [Digest], lms: u32, ots: u32, id: &[u8; 16], seed: &Digest)
    requires lms_type { IsLms lms }
    requires low { lms ≤ 7 }
    requires ots_type { IsOts ots }
    requires length { length nodes.old ≡ 2 * 2 ^ height_of lms }
    ensures { AreNodes lms ots id.now seed.now.0 nodes.new }
{
    let count = leaf_count(lms);
    fill_leaves(nodes, count, ots, id, seed);
    fill_inner(nodes, count, id);
}
