//! The keys of the nodes of a schedule.

ghost use Rattle.std.specs.Prelude.{◌≡◌, ◌≤◌, ◌++◌, ◌∷◌, [], length, map, IfOk, OnOk};
ghost use Rattle.avm_model.specs.Keys.{HasTypes, public_of};
ghost use Rattle.lms_signer.specs.Views.{key_data};
ghost use Rattle.world_schedule.specs.Read.{node_in};
ghost use Rattle.world_start.specs.Start.{AreKeys, key_at, keys_from};

use avm_hash::Digest;
use avm_num::NoMemory;
use lms_signer::{KeyFile, Signer};
use std::alloc::Global;
use world_schedule::NodeLine;

/// Height 5.
const LMS: u32 = 5;

/// W8.
const OTS: u32 = 4;

/// The private key of a node by its number, of which its identifier has 16 bytes.
pub fn key_of(own: u8, node: &NodeLine) -> KeyFile
    ensures value { key_data result ≡ key_at own (node_in node.now) }
    ensures types { HasTypes (key_data result) }
{
    KeyFile {
        lms: LMS,
        ots: OTS,
        id: [own; 16],
        seed: Digest(node.seed),
    }
}

/// The public key of a node.
fn public_key(alloc: Global, own: u8, node: &NodeLine) -> Result<[u8; 56], NoMemory>
    ensures { IfOk result (λ k. k ≡ public_of (key_at own (node_in node.now))) }
{
    let signer = Signer::new(alloc, key_of(own, node))?;
    Ok(signer.public())
}

/// Adds a key.
fn add_key(keys: &mut Vec<[u8; 56]>, key: [u8; 56]) -> Result<(), NoMemory>
    ensures { OnOk result (keys.new.items ≡ keys.old.items ++ key ∷ []) }
{
    match keys.push(key) {
        Ok(()) => Ok(()),
        Err(_) => Err(NoMemory),
    }
}

/// The public keys of nodes, in their order.
pub fn public_keys(alloc: Global, nodes: &[NodeLine]) -> Result<Vec<[u8; 56]>, NoMemory>
    requires few { length nodes.now ≤ 4 }
    ensures value { IfOk result (λ keys. keys.items ≡ keys_from 0 (map node_in nodes.now)) }
    ensures keys { IfOk result (λ keys. AreKeys keys.items) }
    ensures many { IfOk result (λ keys. length keys.items ≡ length nodes.now) }
{
    let mut keys = Vec::new(alloc);
    let mut own = 0u8;
    for node in nodes {
        let key = public_key(alloc, own, node)?;
        add_key(&mut keys, key)?;
        own = own.saturating_add(1);
    }
    Ok(keys)
}
