//! The store that a node of a schedule begins with.

ghost use Rattle.std.specs.Prelude.{◌≡◌, ◌≤◌, ◌<◌, length, None, IfOk};
ghost use Rattle.avm_model.specs.Memory.{IsRam};
ghost use Rattle.format_command.specs.Booted.{IsBootOf};
ghost use Rattle.honest_model.specs.KeepPages.{WritesHead};
ghost use Rattle.world_schedule.specs.Read.{node_in};
ghost use Rattle.world_start.specs.Start.{AreKeys, IsStoreOf, config_at, rows_from};

use crate::keys::key_of;
use avm_model::Peer;
use avm_num::{NoMemory, Room};
use avm_outside::MemDisk;
use avm_script::Config;
use format_command::{Boot, End, Start, boot_machine, make_store};
use guest_machine::Machine;
use snap_state::{head_len, put_head};
use std::alloc::Global;
use world_schedule::NodeLine;

/// The rows of a node for all others, each with its key.
fn peers_of(alloc: Global, keys: &[[u8; 56]], own: u8) -> Result<Vec<Peer>, NoMemory>
    requires few { length keys.now ≤ 4 }
    ensures { IfOk result (λ peers. peers.items ≡ rows_from own 0 keys.now) }
{
    let mut peers = Vec::new(alloc);
    let mut left = keys;
    let mut id = 0u8;
    while let [key, others @ ..] = left {
        let row = Peer {
            id,
            key: *key,
            sent: 0,
            acked: 0,
            received: 0,
        };
        if id != own && peers.push(row).is_err() {
            return Err(NoMemory);
        }
        left = others;
        id = id.saturating_add(1);
    }
    Ok(peers)
}

/// The machine of a node: one page, and a snapshot each 1024 steps. A flat image of at most a page fits.
fn boot_of(alloc: Global, keys: &[[u8; 56]], own: u8, node: &NodeLine) -> Result<Boot, NoMemory>
    requires few { length keys.now ≤ 4 }
    requires own { own < length keys.now }
    requires keys { AreKeys keys.now }
    ensures { IfOk result (IsBootOf (config_at own keys.now) (node_in node.now).image) }
{
    let peers = peers_of(alloc, keys, own)?;
    let config = Config {
        machine: 1,
        own,
        pages: 1,
        snap: 1024,
        peers,
    };
    match boot_machine(alloc, config, &node.image)? {
        Some(boot) => Ok(boot),
        None => Err(NoMemory),
    }
}

/// Writes the head of a machine once, which shows that it tells the machine whole.
fn has_head(alloc: Global, machine: &Machine) -> Result<(), NoMemory>
    requires clock { machine.now.state.devices.clock ≡ None }
    ensures head { IfOk result (λ done. WritesHead machine.now.state) }
    ensures ram { IfOk result (λ done. IsRam machine.now.state.ram machine.now.dirty) }
{
    machine.bounds();
    let mut head = Room::new(alloc, 1 << 14)?;
    head_len(machine);
    put_head(&mut head, machine);
    Ok(())
}

/// A disk in memory with the store of a node.
pub fn store_of(
    alloc: Global,
    keys: &[[u8; 56]],
    own: u8,
    node: &NodeLine,
) -> Result<MemDisk, NoMemory>
    requires few { length keys.now ≤ 4 }
    requires own { own < length keys.now }
    requires keys { AreKeys keys.now }
    ensures { IfOk result (IsStoreOf keys.now own (node_in node.now)) }
{
    let boot = boot_of(alloc, keys, own, node)?;
    has_head(alloc, &boot.machine)?;
    let start = Start {
        key: key_of(own, node),
        boot,
    };
    let mut disk = MemDisk::new(alloc, Vec::new(alloc))?;
    // A disk in memory whose calls aren't to fail fails for want of memory alone.
    match make_store(alloc, &mut disk, &start) {
        Ok(End::StoreMade) => Ok(disk),
        _ => Err(NoMemory),
    }
}
