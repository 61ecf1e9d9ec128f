//! Opening a store as a node, and whether it may stand beside others.

ghost use Rattle.std.specs.Prelude.{◌≡◌, ◌<◌, length, IfOk, IfSome};
ghost use Rattle.avm_model.specs.Device.{find_peer, row_of};
ghost use Rattle.avm_model.specs.Keys.{HasTypes};
ghost use Rattle.record_open.specs.declared.fault.RecordFault.{RecordFault as RecordFaultLem};
ghost use Rattle.record_open.specs.declared.fault.RecordFault.TheVariants as fault;
ghost use Rattle.world_core.specs.Joining.{NotOpened, OpensAs, clashes as clashes_lem, names as names_lem, place_of_clash, place_of_id};
ghost use Rattle.world_core.specs.Runs.{RunsIfUp};

use crate::node::Node;
use avm_model::Peer;
use avm_outside::MemDisk;
use lms_signer::Signer;
use recorder::{RecordFault, Recorder};
use std::alloc::Global;

/// Opens a store as a node.
pub fn opened(alloc: Global, disk: MemDisk, signer: Signer) -> Result<Node, RecordFault>
    requires types { HasTypes signer }
    ensures opens { IfOk result (OpensAs disk signer) }
    ensures fails { (why : RecordFaultLem) → result ≡ Err why → NotOpened disk signer why }
    ensures runs { IfOk result (λ n. RunsIfUp n.disk n.recorder) }
{
    let mut disk = disk;
    let key = signer.public();
    let recorder = match Recorder::attach(alloc, &mut disk, signer) {
        Ok(recorder) => recorder,
        Err(fault) => return Err(fault),
    };
    let devices = recorder.machine().devices();
    let own = devices.own();
    let Ok(peers) = Vec::from_slice(alloc, devices.peers()) else {
        return Err(RecordFault::NoMemory);
    };
    Ok(Node {
        disk,
        recorder: Some(recorder),
        own,
        key,
        peers,
    })
}

/// The place of the row of an id.
fn row_place(peers: &[Peer], id: u8) -> Option<usize>
    ensures value { result ≡ find_peer peers.now id }
    ensures bound { IfSome result (λ i. i < length peers.now) }
{
    peers.iter().position(|p| p.id == id)
}

/// Whether rows name this key for an id, or have no row for it.
fn names(peers: &[Peer], id: u8, key: &[u8; 56]) -> bool
    ensures { result ≡ names_lem peers.now id key.now }
{
    match row_place(peers, id) {
        Some(place) => peers[place].key == *key,
        None => true,
    }
}

/// Whether one of two nodes names the other with another key than the other's.
fn clashes(node: &Node, other: &Node) -> bool
    ensures { result ≡ clashes_lem node.now other.now }
{
    !names(&other.peers, node.own, &node.key) || !names(&node.peers, other.own, &other.key)
}

/// The first node with an own id.
pub fn same_id(nodes: &[Node], own: u8) -> Option<usize>
    ensures value { result ≡ place_of_id nodes.now own }
    ensures bound { IfSome result (λ i. i < length nodes.now) }
{
    nodes.iter().position(|node| node.own == own)
}

/// The first node that clashes with one.
pub fn other_key(nodes: &[Node], node: &Node) -> Option<usize>
    ensures value { result ≡ place_of_clash nodes.now node.now }
    ensures bound { IfSome result (λ i. i < length nodes.now) }
{
    nodes.iter().position(|other| clashes(node, other))
}
