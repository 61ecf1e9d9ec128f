//! What stands before a segment's pages.

ghost use Rattle.std.specs.Prelude.{◌≡◌, None, IfOk};
ghost use Rattle.avm_num.specs.Room.{left};
ghost use Rattle.avm_model.specs.Head.{head_bytes};
ghost use Rattle.avm_model.specs.HeadState.{data_of};
ghost use Rattle.avm_model.specs.Segment.{segment_front_bytes};
ghost use Rattle.rebut_model.specs.Texts.{OfHead};

use avm_hash::Digest;
use avm_num::{NoMemory, Room};
use guest_machine::Machine;
use seg_file::put_front;
use snap_state::{head_len, put_head};
use std::alloc::Global;

/// The head of a machine.
#[tactic(auto, unfolding(avm_num::specs::Room::left))]
fn head_of_machine(alloc: Global, machine: &Machine) -> Result<Room, NoMemory>
    requires clock { machine.now.state.devices.clock ≡ None }
    ensures head { IfOk result (λ r. r.bytes ≡ head_bytes (data_of machine.now.state)) }
    ensures whole { IfOk result (λ _. OfHead machine.now.state) }
{
    machine.bounds();
    let mut head = Room::new(alloc, head_len(machine))?;
    put_head(&mut head, machine);
    Ok(head)
}

/// The number of the first entry, the hash before it, and the head of the state there.
#[tactic(auto, unfolding(avm_num::specs::Room::left))]
pub fn front(alloc: Global, machine: &Machine, from: u64, before: &Digest) -> Result<Room, NoMemory>
    requires clock { machine.now.state.devices.clock ≡ None }
    ensures front { IfOk result (λ r. r.bytes ≡ segment_front_bytes (record { start = from; before = before.now.0; head = head_bytes (data_of machine.now.state) })) }
    ensures whole { IfOk result (λ _. OfHead machine.now.state) }
{
    let len = head_len(machine);
    let head = head_of_machine(alloc, machine)?;
    let mut front = Room::new(alloc, 49 + len)?;
    put_front(&mut front, from, before, head.bytes());
    Ok(front)
}
