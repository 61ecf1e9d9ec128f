ghost use Rattle.std.specs.Prelude.{◌≡◌, ◌<◌, ◌^◌, drop, length, slice_index};
ghost use Rattle.std.specs.List.{AllByRecursion};
ghost use Rattle.avm_model.specs.Head.{FitsPeer, FitsFront, FitsHart, FitsQueues, FitsTransmit, FitsBell, FitsHead};
ghost use Rattle.avm_model.specs.HeadState.{data_of};

use crate::writing::bell_of;
use avm_model::Peer;
use guest_dev::Devices;
use guest_machine::Machine;
use rv32_core::Hart;

// These functions do nothing: they tell what the types and the bounds of a machine say of its head.

fn are_words(words: &[u32])
    ensures { AllByRecursion (λ n. n < 2 ^ 32) words.now }
{}

fn is_word(n: u32)
    ensures { n < 2 ^ 32 }
{}

fn is_long(n: u64)
    ensures { n < 2 ^ 64 }
{}

fn is_key(key: &[u8; 56])
    ensures { length key.now ≡ 56 }
{}

fn is_peer(peer: &Peer)
    ensures { FitsPeer peer.now }
{
    is_key(&peer.key);
    is_long(peer.sent);
    is_long(peer.acked);
    is_long(peer.received);
}

fn are_peers(peers: &[Peer])
    ensures { AllByRecursion FitsPeer peers.now }
{
    for peer in peers {
        is_peer(peer);
    }
}

fn front_fits(machine: &Machine)
    ensures { FitsFront (data_of machine.now.state).front }
{
    machine.bounds();
    are_peers(machine.devices().peers());
    let _snap = machine.snap();
    let _pages = machine.ram().pages();
}

/// All registers but the first.
pub fn behind_first(x: &[u32]) -> &[u32]
    requires { length x.now ≡ 32 }
    ensures value { result.now ≡ drop 1 x.now }
    ensures len { length result.now ≡ 31 }
{
    match x {
        [_, rest @ ..] => rest,
        [] => x,
    }
}

fn registers_fit(hart: &Hart)
    ensures len { length (drop 1 hart.now.x) ≡ 31 }
    ensures words { AllByRecursion (λ n. n < 2 ^ 32) (drop 1 hart.now.x) }
    ensures pc { hart.now.pc < 2 ^ 32 }
{
    are_words(behind_first(&hart.x));
    let _pc = hart.pc();
}

pub fn first_is_zero(hart: &Hart)
    ensures len { length hart.now.x ≡ 32 }
    ensures value { slice_index hart.now.x 0 ≡ 0 }
{
    let _first = hart.x[0];
}

fn hart_fits(machine: &Machine)
    ensures { FitsHart (data_of machine.now.state).hart }
{
    registers_fit(machine.hart());
    let _count = machine.count();
}

fn regs_fit(devices: &Devices)
    ensures latch { devices.now.state.latch < 2 ^ 32 }
    ensures peer { devices.now.state.tx_peer < 2 ^ 32 }
    ensures len { devices.now.state.tx_len < 2 ^ 32 }
    ensures result { devices.now.state.tx_result < 2 ^ 32 }
{
    let regs = devices.regs();
    is_word(regs.latch);
    is_word(regs.peer);
    is_word(regs.len);
    is_word(regs.result);
}

#[tactic(auto, using(avm_model::proofs::HeadBounds::messages_fit))]
fn queues_fit(machine: &Machine)
    ensures { FitsQueues (data_of machine.now.state).queues }
{
    machine.bounds();
    regs_fit(machine.devices());
}

fn is_window(window: &[u8; 1024])
    ensures { length window.now ≡ 1024 }
{}

fn window_fits(devices: &Devices)
    ensures { length devices.now.state.window ≡ 1024 }
{
    is_window(devices.window());
}

fn transmit_fits(machine: &Machine)
    ensures { FitsTransmit (data_of machine.now.state).transmit }
{
    let devices = machine.devices();
    regs_fit(devices);
    window_fits(devices);
}

fn bell_fits(devices: &Devices)
    ensures { FitsBell devices.now.state.bell }
{
    if let Some(bell) = bell_of(devices) {
        is_word(bell.vector);
        is_word(bell.saved);
    }
}

pub fn head_fits(machine: &Machine)
    ensures { FitsHead (data_of machine.now.state) }
{
    front_fits(machine);
    hart_fits(machine);
    queues_fit(machine);
    transmit_fits(machine);
    bell_fits(machine.devices());
}
