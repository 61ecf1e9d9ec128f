// Whether a machine is in the state in which it boots.
ghost use Rattle.std.specs.Prelude.{◌≡◌};
ghost use Rattle.avm_model.specs.ImageState.{are_unused as are_unused_lem, is_new as is_new_lem, is_fresh as is_fresh_lem, is_booted as is_booted_lem};

use crate::pages::has_pages;
use avm_model::{Bell, Peer, Status};
use guest_dev::Devices;
use guest_machine::Machine;

/// Whether nothing was sent to the peers and nothing came from them.
fn are_unused(peers: &[Peer]) -> bool
    ensures { result ≡ are_unused_lem peers.now }
{
    for i in 0..peers.len() {
        if peers[i].sent != 0 || peers[i].acked != 0 || peers[i].received != 0 {
            return false;
        }
    }
    true
}

/// Whether the bell is that of a machine that boots.
#[tactic(auto, using(crate::proofs::Bells::new_as_shown))]
fn is_new(devices: &Devices) -> bool
    ensures { result ≡ is_new_lem devices.now.state.bell }
{
    let Bell {
        vector,
        saved,
        state,
    } = devices.bell();
    vector == 0 && saved == 0 && state == 0
}

/// Whether the devices hold nothing.
fn is_fresh(devices: &Devices) -> bool
    ensures { result ≡ is_fresh_lem devices.now.state }
{
    let regs = devices.regs();
    devices.line().is_empty()
        && devices.is_idle()
        && !devices.pending()
        && regs.latch == 0
        && regs.peer == 0
        && regs.len == 0
        && regs.result == 0
        && devices.window().as_slice() == [0; 1024].as_slice()
        && are_unused(devices.peers())
        && is_new(devices)
}

/// Whether the machine boots, with this RAM and entry.
pub fn is_booted(machine: &Machine, ram: &[u8], entry: u32) -> bool
    ensures { result ≡ is_booted_lem machine.now.state ram.now entry }
{
    let hart = machine.hart();
    machine.count() == 0
        && machine.status() == Status::Running
        && hart.pc == entry
        && hart.x.as_slice() == [0; 32].as_slice()
        && is_fresh(machine.devices())
        && has_pages(machine.ram(), ram)
}
