ghost use Rattle.std.specs.Prelude.{◌≡◌, ◌≤◌, ◌<◌, ◌+◌, ◌*◌, ◌^◌, ◌++◌, ◌↔◌, true, take, length, IfOk, IfErr};
ghost use Rattle.avm_model.specs.LmsTypes.{IsLms, IsOts, height_of, chains_of};
ghost use Rattle.avm_model.specs.Keys.{HasTypes, public_of, sig_of};
ghost use Rattle.avm_model.specs.LmsTree.{beside, path};
ghost use Rattle.avm_model.specs.LmsValid.{Valid, valid};
ghost use Rattle.avm_num.specs.Room.{with_bytes, left};
ghost use Rattle.lms_tree.specs.Key.{node_at, key_of, AreNodes};

use crate::building::fill;
use crate::nodes::{height, leaf_count, signature_len};
use avm_hash::Digest;
use avm_num::{NoMemory, Room};
use std::alloc::Global;
use std::marker::Model;

/// Why no key was made: memory ran out, or the tree is too high.
#[derive(Clone, Copy)]
pub enum MakeFault {
    NoMemory,
    Height,
}

/// A private key with all nodes of its tree.
#[derive(Drop)]
pub struct LmsKey {
    lms: u32,
    ots: u32,
    id: [u8; 16],
    seed: Digest,
    nodes: Vec<Digest>,
}

impl Model for LmsKey {
    ghost use Rattle.avm_model.specs.Keys.{KeyData};
    ghost use Rattle.lms_tree.specs.Key.{key_of, IsKept};

    ghost Value = { KeyData };

    ghost view = { λ k. key_of k.lms k.ots k.id k.seed.0 };

    ghost invariant = { λ k. IsKept k.lms k.ots k.id k.seed.0 k.nodes.items };
}

/// Writes bytes at a place.
fn put_at(bytes: &mut [u8], at: usize, end: usize, part: &[u8])
    requires length { at + length part.now ≡ end }
    requires within { end ≤ length bytes.old }
    ensures { take end bytes.new ≡ take at bytes.old ++ part.now }
{
    bytes[at..end].copy_from_slice(part);
}

/// The node beside r.
fn beside_of(r: usize) -> usize
    requires { r < 2 ^ 32 }
    ensures { result ≡ beside r }
{
    if r % 2 == 1 { r - 1 } else { r + 1 }
}

/// Writes the nodes beside the way up from a leaf.
fn put_path(nodes: &[Digest], h: usize, leaf: usize, out: &mut Room)
    requires all { length nodes.now ≡ 2 * 2 ^ h }
    requires few { length nodes.now ≤ 2 ^ 16 }
    requires low { h ≤ 25 }
    requires from { 2 ^ h ≤ leaf }
    requires below { leaf < 2 * 2 ^ h }
    requires room { 32 * h ≤ left out.old }
    ensures left { left out.new + 32 * h ≡ left out.old }
    ensures value { out.new ≡ with_bytes out.old (path (node_at nodes.now) h leaf) }
{
    let mut r = leaf;
    for i in 0..h {
        let node = nodes[beside_of(r)];
        out.put(&node.0);
        r /= 2;
    }
}

/// All nodes of a key.
fn kept_nodes(
    alloc: Global,
    lms: u32,
    ots: u32,
    id: &[u8; 16],
    seed: &Digest,
) -> Result<Vec<Digest>, NoMemory>
    requires lms_type { IsLms lms }
    requires low { lms ≤ 7 }
    requires ots_type { IsOts ots }
    ensures { IfOk result (λ v. AreNodes lms ots id.now seed.now.0 v.items) }
{
    match vec![in alloc; Digest([0u8; 32]); 2 * leaf_count(lms)] {
        Ok(mut nodes) => {
            fill(&mut nodes, lms, ots, id, seed);
            Ok(nodes)
        }
        Err(_) => Err(NoMemory),
    }
}

impl LmsKey {
    /// The private key of these types, id and seed, with all nodes of its tree. `lms` is from 5 to 9 and `ots` from 1 to 4. Height
    /// comes exactly for the heights 20 and 25, whose nodes are too many to keep; this is all that takes memory.
    pub fn make(
        alloc: Global,
        lms: u32,
        ots: u32,
        id: [u8; 16],
        seed: Digest,
    ) -> Result<LmsKey, MakeFault>
        requires lms_type { IsLms lms }
        requires ots_type { IsOts ots }
        ensures made { IfOk result (λ k. (k ≡ key_of lms ots id seed.0) × (lms ≤ 7)) }
        ensures fault { IfErr result (λ e. (e ≡ MakeFault.Height) ↔ (8 ≤ lms)) }
    {
        if lms > 7 {
            return Err(MakeFault::Height);
        }
        match kept_nodes(alloc, lms, ots, &id, &seed) {
            Ok(nodes) => Ok(LmsKey {
                lms,
                ots,
                id,
                seed,
                nodes,
            }),
            Err(_) => Err(MakeFault::NoMemory),
        }
    }

    /// The public key (RFC 8554, section 5.3).
    pub fn public(&self) -> [u8; 56]
        ensures { result ≡ public_of self.now }
    {
        let mut key = [0u8; 56];
        put_at(&mut key, 0, 4, &self.lms.to_be_bytes());
        put_at(&mut key, 4, 8, &self.ots.to_be_bytes());
        put_at(&mut key, 8, 24, &self.id);
        put_at(&mut key, 24, 56, &self.nodes[1].0);
        key
    }

    /// The number of leaves.
    pub fn leaves(&self) -> u32
        ensures value { result ≡ 2 ^ height_of self.now.lms }
        ensures few { result ≤ 2 ^ 15 }
        ensures types { HasTypes self.now }
    {
        leaf_count(self.lms) as u32
    }

    /// The length of a signature in bytes.
    pub fn signature_len(&self) -> usize
        ensures value { result ≡ 44 + 32 * chains_of self.now.ots + 32 * height_of self.now.lms }
        ensures small { result ≤ 9324 }
    {
        signature_len(self.lms, self.ots)
    }

    /// Appends the signature of a text at leaf `q` (RFC 8554, section 5.4.1, algorithm 5), which is valid under the public key.
    /// It needs a leaf of the key, and room for a signature. Nothing here keeps a leaf from being used twice.
    #[tactic(auto, unfolding(avm_num::specs::Lists::be))]
    pub fn sign(&self, q: u32, text: &[u8], out: &mut Room)
        requires leaf { q < 2 ^ height_of self.now.lms }
        requires room { 44 + 32 * chains_of self.now.ots + 32 * height_of self.now.lms ≤ left out.old }
        ensures value { out.new ≡ with_bytes out.old (sig_of self.now q text.now) }
        ensures left { left out.new + (44 + 32 * chains_of self.now.ots + 32 * height_of self.now.lms) ≡ left out.old }
        ensures equations { Valid (public_of self.now) text.now (sig_of self.now q text.now) }
        ensures valid { valid (public_of self.now) text.now (sig_of self.now q text.now) ≡ true }
    {
        let h = height(self.lms);
        out.put_u32(q);
        lms_ots::sign(self.ots, &self.id, q, &self.seed, text, out);
        out.put_u32(self.lms);
        put_path(&self.nodes, h, leaf_count(self.lms) + q as usize, out);
    }
}
