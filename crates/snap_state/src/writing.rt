ghost use Rattle.std.specs.Prelude.{◌≡◌, ◌+◌, ◌*◌, ◌≤◌, None, Some, drop, length};
ghost use Rattle.avm_num.specs.Room.{with_bytes, left};
ghost use Rattle.avm_model.specs.Head.{front_bytes, hart_bytes, transmit_bytes, head_bytes};
ghost use Rattle.avm_model.specs.HeadReading.{head_of};
ghost use Rattle.avm_model.specs.HeadState.{data_of, state_of};
ghost use Rattle.avm_model.specs.Pages.{sha_hashes, root_of};
ghost use Rattle.avm_model.specs.Root.{root, root_over};
ghost use Rattle.avm_model.specs.Sizes.{head_size, bell_size};

use crate::draft::Draft;
use crate::fitting::{behind_first, first_is_zero, head_fits};
use crate::put::{put_bell, put_front, put_hart, put_transmit};
use crate::queues::put_queues;
use avm_hash::{Digest, Hasher};
use avm_model::Bell;
use avm_num::Room;
use guest_dev::Devices;
use guest_machine::{Machine, Status};
use rv32_core::Hart;

/// Writes who a machine is, and whom it knows.
#[tactic(auto, using(avm_model::proofs::PageDepth::pages_are, avm_model::proofs::HeadBounds::rows_few))]
fn put_who(out: &mut Draft, machine: &Machine)
    requires room { 10 + 81 * length machine.now.state.devices.peers ≤ left out.old }
    ensures value { out.new ≡ with_bytes out.old (front_bytes (data_of machine.now.state).front) }
    ensures left { left out.new + 10 + 81 * length machine.now.state.devices.peers ≡ left out.old }
{
    machine.bounds();
    let devices = machine.devices();
    put_front(
        out,
        devices.own(),
        machine.snap(),
        machine.ram().pages(),
        devices.peers(),
    );
}

/// Writes registers 1 to 31 and pc of a hart, and where it stands.
fn put_registers(out: &mut Draft, hart: &Hart, count: u64, status: Status)
    requires room { 137 ≤ left out.old }
    ensures value { out.new ≡ with_bytes out.old (hart_bytes (record { x = drop 1 hart.now.x; pc = hart.now.pc; count = count; status = status })) }
    ensures left { left out.new + 137 ≡ left out.old }
{
    put_hart(out, behind_first(&hart.x), hart.pc, count, status);
}

/// Writes a machine's registers, and where it stands.
fn put_where(out: &mut Draft, machine: &Machine)
    requires room { 137 ≤ left out.old }
    ensures value { out.new ≡ with_bytes out.old (hart_bytes (data_of machine.now.state).hart) }
    ensures left { left out.new + 137 ≡ left out.old }
{
    put_registers(out, machine.hart(), machine.count(), machine.status());
}

/// Writes the transmit registers and the window of the devices.
fn put_sending(out: &mut Draft, devices: &Devices)
    requires room { 1036 ≤ left out.old }
    ensures value { out.new ≡ with_bytes out.old (transmit_bytes (record { peer = devices.now.state.tx_peer; len = devices.now.state.tx_len; result = devices.now.state.tx_result; window = devices.now.state.window })) }
    ensures left { left out.new + 1036 ≡ left out.old }
{
    let regs = devices.regs();
    put_transmit(out, regs.peer, regs.len, regs.result, devices.window());
}

/// The bell of the devices, which version 1 does not have.
#[tactic(auto, using(crate::proofs::Bells::bell_of_two, crate::proofs::Bells::bell_of_one))]
pub fn bell_of(devices: &Devices) -> Option<Bell>
    ensures { result ≡ devices.now.state.bell }
{
    if devices.version() == 2 {
        Some(devices.bell())
    } else {
        None
    }
}

/// Writes the version and the parts of a head.
#[tactic(auto, unfolding(avm_model::specs::Head::head_bytes), using(avm_num::proofs::Writes::written))]
fn put_parts(out: &mut Draft, machine: &Machine)
    requires room { head_size (data_of machine.now.state) ≤ left out.old }
    ensures { out.new ≡ with_bytes out.old (head_bytes (data_of machine.now.state)) }
{
    let devices = machine.devices();
    out.put_u8(devices.version());
    put_who(out, machine);
    put_where(out, machine);
    put_queues(out, devices);
    put_sending(out, devices);
    put_bell(out, bell_of(devices));
}

/// The head of a machine, on the stack.
fn draft_of(machine: &Machine) -> Draft
    ensures { result.bytes ≡ head_bytes (data_of machine.now.state) }
{
    machine.bounds();
    let mut out = Draft::new();
    put_parts(&mut out, machine);
    out
}

/// How many bytes the head of a machine has: in version 1 from 1192 to 11,774, in version 2 nine more.
#[tactic(auto, using(avm_model::proofs::HeadLength::head_length, avm_model::proofs::HeadBounds::size_most))]
pub fn head_len(machine: &Machine) -> usize
    ensures value { result ≡ length (head_bytes (data_of machine.now.state)) }
    ensures size { result ≡ head_size (data_of machine.now.state) }
    ensures least { 1192 + bell_size machine.now.state.devices.bell ≤ result }
    ensures most { result ≤ 11774 + bell_size machine.now.state.devices.bell }
    ensures short { result ≤ 11783 }
{
    machine.bounds();
    head_fits(machine);
    draft_of(machine).bytes().len()
}

/// Writes the head of a machine, which is a head again.
#[tactic(auto, using(avm_model::proofs::HeadReads::head_again, crate::proofs::States::state_again))]
pub fn put_head(out: &mut Room, machine: &Machine)
    requires clock { machine.now.state.devices.clock ≡ None }
    requires room { length (head_bytes (data_of machine.now.state)) ≤ left out.old }
    ensures value { out.new ≡ with_bytes out.old (head_bytes (data_of machine.now.state)) }
    ensures left { left out.new + length (head_bytes (data_of machine.now.state)) ≡ left out.old }
    ensures read { head_of (head_bytes (data_of machine.now.state)) ≡ Some (data_of machine.now.state) }
    ensures state { state_of (data_of machine.now.state) machine.now.state.ram ≡ machine.now.state }
{
    machine.bounds();
    head_fits(machine);
    first_is_zero(machine.hart());
    let draft = draft_of(machine);
    out.put(draft.bytes());
}

/// The root of a machine's state: the hash over its head and the root of its pages.
#[tactic(auto, unfolding(avm_model::specs::Root::root_over))]
fn root_with(machine: &Machine, pages: &Digest) -> Digest
    ensures { result.0 ≡ root_over (head_bytes (data_of machine.now.state)) pages.now.0 }
{
    let draft = draft_of(machine);
    let mut hasher = Hasher::new();
    hasher.update(&[2]);
    hasher.update(draft.bytes());
    hasher.update(&pages.0);
    hasher.finish()
}

/// The root of a machine's state, where `pages` is the root of its pages: the hash over the head and that root.
#[tactic(auto, unfolding(avm_model::specs::Root::root, avm_model::specs::Pages::page_root))]
pub fn state_root(machine: &Machine, pages: &Digest) -> Digest
    ensures value { result.0 ≡ root_over (head_bytes (data_of machine.now.state)) pages.now.0 }
    ensures root { pages.now ≡ root_of sha_hashes machine.now.state.ram → result.0 ≡ root machine.now.state }
{
    root_with(machine, pages)
}
