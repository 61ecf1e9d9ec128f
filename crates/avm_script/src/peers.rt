// Peers in ascending order of ids.
ghost use Rattle.std.specs.Prelude.{◌≡◌, [], Some, None, Ok, true, false, IfOk, option_map};
ghost use Rattle.serde_json.specs.View.{view, items_view};
ghost use Rattle.avm_script.specs.Config.{peer_of, placed, peers_from};

use crate::fields::{has_members, key_bytes, number};
use avm_model::Peer;
use avm_num::NoMemory;
use serde_json::Value;
use std::alloc::Global;

// A peer: exactly an id and a key.
#[tactic(auto, unfolding(crate::specs::Config::peer_of))]
fn read_peer(value: &Value) -> Option<Peer>
    ensures { result ≡ peer_of (view value.now) }
{
    let id = number(value, "id")?;
    let key = key_bytes(value, "key")?;
    if !has_members(2, value) || id >= 16 {
        return None;
    }
    Some(Peer {
        id: id as u8,
        key,
        sent: 0,
        acked: 0,
        received: 0,
    })
}

// Puts a peer at its place. False where its id is there.
fn place(peers: &mut Vec<Peer>, peer: Peer) -> Result<bool, NoMemory>
    ensures placed { result ≡ Ok true → placed peer peers.old.items ≡ Some peers.new.items }
    ensures there { result ≡ Ok false → placed peer peers.old.items ≡ None }
{
    let mut at = 0;
    while at < peers.len() && peers[at].id < peer.id {
        at += 1;
    }
    if at < peers.len() && peers[at].id == peer.id {
        return Ok(false);
    }
    match peers.insert(at, peer) {
        Ok(()) => Ok(true),
        Err(_) => Err(NoMemory),
    }
}

// The peers of an array, in any order.
pub fn peers_in(alloc: Global, items: &[Value]) -> Result<Option<Vec<Peer>>, NoMemory>
    ensures { IfOk result (λ o. option_map (λ v. v.items) o ≡ peers_from (items_view items.now) []) }
{
    let mut peers = Vec::new(alloc);
    let mut left = items;
    while let [item, others @ ..] = left {
        let Some(peer) = read_peer(item) else {
            return Ok(None);
        };
        if !place(&mut peers, peer)? {
            return Ok(None);
        }
        left = others;
    }
    Ok(Some(peers))
}
