//! Where a keep's parts are made before they stand in the batch.

ghost use Rattle.std.specs.Prelude.{◌≡◌, ◌≤◌, ◌<◌, length, IfOk, ℕ, get_or, true, false, None, Some};
ghost use Rattle.avm_model.specs.Head.{head_bytes};
ghost use Rattle.avm_model.specs.HeadReading.{head_of};
ghost use Rattle.avm_model.specs.HeadState.{data_of, state_of};
ghost use Rattle.record_machine.specs.Marks.{HasMarks, used_marks};

use avm_num::{NoMemory, Room};
use guest_machine::Machine;
use rv32_mem::Ram;
use snap_state::{head_len, put_head};
use std::alloc::Global;

/// The most bytes of a head.
const LONGEST_HEAD: usize = 11_783;

/// Room for a head, and a mark for each page.
#[derive(Drop)]
pub struct Drafts {
    pub(crate) head: Room,
    pub(crate) marks: Vec<bool>,
    ghost room: { head.capacity ≡ 11783 },
}

/// Sets the marks of the pages that the next keep has: all of them, or those that have a mark in the RAM.
fn copy_marks(marks: &mut [bool], ram: &Ram, all: bool)
    requires { length marks.old ≡ length ram.now.dirty }
    ensures { HasMarks marks.new (used_marks all ram.now.dirty) }
{
    ram.pages();
    for (i, mark) in marks.iter_mut().enumerate() {
        *mark = all || ram.dirty(i as u32);
    }
}

impl Drafts {
    /// Drafts for a machine of so many pages. It alone takes memory.
    pub fn new(alloc: Global, pages: u32) -> Result<Drafts, NoMemory>
        ensures { IfOk result (λ d. length d.marks.items ≡ pages) }
    {
        let Ok(marks) = vec![in alloc; false; pages as usize] else {
            return Err(NoMemory);
        };
        let head = Room::new(alloc, LONGEST_HEAD)?;
        Ok(Drafts { head, marks })
    }

    /// Makes the head of a machine, and the marks of the pages that its keep has.
    #[tactic(auto, unfolding(avm_num::specs::Room::left))]
    pub(crate) fn make(&mut self, machine: &Machine, all: bool)
        requires clock { machine.now.state.devices.clock ≡ None }
        requires pages { length self.old.marks.items ≡ length machine.now.dirty }
        ensures head { self.new.head.bytes ≡ head_bytes (data_of machine.now.state) }
        ensures short { length self.new.head.bytes ≤ 11783 }
        ensures marks { HasMarks self.new.marks.items (used_marks all machine.now.dirty) }
        ensures pages { length self.new.marks.items ≡ length self.old.marks.items }
        ensures read { head_of (head_bytes (data_of machine.now.state)) ≡ Some (data_of machine.now.state) }
        ensures state { state_of (data_of machine.now.state) machine.now.state.ram ≡ machine.now.state }
    {
        head_len(machine);
        self.head.clear();
        put_head(&mut self.head, machine);
        copy_marks(self.marks.as_mut_slice(), machine.ram(), all);
    }
}
