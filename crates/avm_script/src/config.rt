// A configuration.
ghost use Rattle.std.specs.Prelude.{◌≡◌, Err, Some, None, IfOk, IfSome, option_map, codes};
ghost use Rattle.std.specs.Str.{IsUtf8};
ghost use Rattle.avm_num.specs.Bytes.{kept};
ghost use Rattle.avm_model.specs.Init.{ConfigData};
ghost use Rattle.serde_json.specs.Data.{Data};
ghost use Rattle.serde_json.specs.Find.{get};
ghost use Rattle.serde_json.specs.Read.{read};
ghost use Rattle.serde_json.specs.View.{view};
ghost use Rattle.avm_script.specs.Config.{IsConfig, config_of, is_config, config_data, version_of, keys_with};
ghost use Rattle.avm_script.specs.ConfigView.{config_view};

use crate::ReadFault;
use crate::bounds::front_fits;
use crate::fields::{has_members, number};
use crate::peers::peers_in;
use avm_model::Peer;
use avm_num::NoMemory;
use serde_json::{Category, Value};
use std::alloc::Global;

/// What a machine is made with: its version, 1 or 2, its own id, the pages of RAM, the number of steps between two snapshots, and the peers in
/// ascending order of ids.
#[derive(Drop)]
pub struct Config {
    pub machine: u8,
    pub own: u8,
    pub pages: u32,
    pub snap: u32,
    pub peers: Vec<Peer>,
}

// The JSON value of the bytes.
fn json_value(alloc: Global, bytes: &[u8]) -> Result<Value, ReadFault>
    ensures ok { IfOk result (λ v. IsUtf8 bytes.now × (read bytes.now ≡ Some (view v))) }
    ensures refused { result ≡ Err ReadFault.Refused → IsUtf8 bytes.now → read bytes.now ≡ None }
{
    match Value::from_slice(alloc, bytes) {
        Ok(value) => Ok(value),
        Err(error) => match error.classify() {
            Category::Memory => Err(ReadFault::NoMemory),
            _ => Err(ReadFault::Refused),
        },
    }
}

// The configuration of these parts, where it is within the bounds of a head.
fn within(machine: u8, own: u64, pages: u64, snap: u64, peers: Vec<Peer>) -> Option<Config>
    ensures { option_map config_view result ≡ kept (is_config (config_data machine own pages snap peers.items)) (config_data machine own pages snap peers.items) }
{
    if !front_fits(own, pages, snap, &peers) {
        return None;
    }
    Some(Config {
        machine,
        own: own as u8,
        pages: pages as u32,
        snap: snap as u32,
        peers,
    })
}

// The machine's version behind its key, and how many keys there are with it.
fn version(value: &Value) -> Option<(u8, usize)>
    ensures version { option_map (λ p. p.0) result ≡ version_of (get (codes "machine") (view value.now)) }
    ensures keys { IfSome result (λ p. p.1 ≡ keys_with (get (codes "machine") (view value.now))) }
{
    let Some(machine) = value.get("machine") else {
        return Some((1, 4));
    };
    match machine.as_u64() {
        Some(1) => Some((1, 5)),
        Some(2) => Some((2, 5)),
        _ => None,
    }
}

// The configuration that a JSON value says.
#[tactic(auto, unfolding(crate::specs::Config::config_of))]
fn configured(alloc: Global, value: &Value) -> Result<Option<Config>, NoMemory>
    ensures { IfOk result (λ c. option_map config_view c ≡ config_of (view value.now)) }
{
    let Some((machine, keys)) = version(value) else {
        return Ok(None);
    };
    let (Some(own), Some(pages), Some(snap)) = (
        number(value, "own"),
        number(value, "pages"),
        number(value, "snap"),
    ) else {
        return Ok(None);
    };
    let Some(items) = value.get("peers").and_then(Value::as_array) else {
        return Ok(None);
    };
    let Some(peers) = peers_in(alloc, items)? else {
        return Ok(None);
    };
    if !has_members(keys, value) {
        return Ok(None);
    }
    Ok(within(machine, own, pages, snap, peers))
}

/// Reads a configuration. Refused exactly where the bytes are none.
pub fn read_config(alloc: Global, bytes: &[u8]) -> Result<Config, ReadFault>
    ensures ok { IfOk result (λ c. IsConfig bytes.now (config_view c)) }
    ensures refused { result ≡ Err ReadFault.Refused → (c : ConfigData) → IsConfig bytes.now c → ⊥ }
{
    let value = json_value(alloc, bytes)?;
    match configured(alloc, &value)? {
        Some(config) => Ok(config),
        None => Err(ReadFault::Refused),
    }
}
