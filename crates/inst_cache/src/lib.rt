//! Decoded instructions, kept by their addresses.
#![tactic(auto)]

ghost use Rattle.std.specs.Prelude.{◌≡◌, ◌≤◌, ◌%◌, ◌/◌, ◌<◌, length, IfSome, Some, is_some};
ghost use Rattle.std.specs.Prelude.{ℕ, List};
ghost use Rattle.avm_model.specs.Decode.{HasWord};
ghost use Rattle.avm_model.specs.Memory.{IsSize, ram_store, stored_ram};
ghost use Rattle.inst_cache.specs.Kept.{inst_at, AreKept};

use avm_model::Inst;
use rv32_decode::decode;
use rv32_mem::Ram;

/// An address and the instruction that stands there. An address that is no multiple of 4 is none.
#[derive(Clone, Copy)]
pub struct Slot {
    addr: u32,
    inst: Inst,
}

/// Slots that keep nothing.
pub fn no_slots() -> [Slot; 1024]
    ensures { (bytes : List ℕ) → AreKept bytes result }
{
    [Slot {
        addr: 1,
        inst: Inst::Fence,
    }; 1024]
}

/// The slot of an address.
fn slot_of(addr: u32) -> usize
    ensures value { result ≡ addr / 4 % 1024 }
    ensures below { result < 1024 }
{
    (addr / 4 % 1024) as usize
}

/// The instruction at pc, where it is kept.
fn kept(slots: &[Slot], ram: &Ram, pc: u32) -> Option<Inst>
    requires length { length slots.now ≡ 1024 }
    requires aligned { pc % 4 ≡ 0 }
    requires kept { AreKept ram.now.bytes slots.now }
    ensures value { IfSome result (λ i. inst_at ram.now.bytes pc ≡ Some i) }
    ensures word { IfSome result (λ i. HasWord i) }
{
    let slot = slots[slot_of(pc)];
    if slot.addr == pc {
        return Some(slot.inst);
    }
    None
}

/// Decodes the word at pc and keeps it.
#[tactic(auto, unfolding(crate::specs::Kept::inst_at))]
fn read(ram: &Ram, pc: u32) -> Option<Inst>
    ensures value { result ≡ inst_at ram.now.bytes pc }
    ensures word { IfSome result (λ i. HasWord i) }
{
    match ram.fetch(pc) {
        Some(word) => decode(word),
        None => None,
    }
}

/// Keeps an instruction that stands at pc.
fn keep(slots: &mut [Slot], ram: &Ram, pc: u32, inst: Inst)
    requires length { length slots.old ≡ 1024 }
    requires kept { AreKept ram.now.bytes slots.old }
    requires stands { inst_at ram.now.bytes pc ≡ Some inst }
    requires word { HasWord inst }
    ensures { AreKept ram.now.bytes slots.new }
{
    slots[slot_of(pc)] = Slot { addr: pc, inst };
}

/// The instruction at pc, from its slot or else from RAM.
pub fn fetch(slots: &mut [Slot], ram: &Ram, pc: u32) -> Option<Inst>
    requires length { length slots.old ≡ 1024 }
    requires aligned { pc % 4 ≡ 0 }
    requires kept { AreKept ram.now.bytes slots.old }
    ensures value { result ≡ inst_at ram.now.bytes pc }
    ensures word { IfSome result (λ i. HasWord i) }
    ensures kept { AreKept ram.now.bytes slots.new }
{
    if let Some(inst) = kept(slots, ram, pc) {
        return Some(inst);
    }
    let inst = read(ram, pc)?;
    keep(slots, ram, pc, inst);
    Some(inst)
}

/// Stores into RAM, and empties the slot of the word.
pub fn store(slots: &mut [Slot], ram: &mut Ram, addr: u32, bytes: u32, value: u32) -> bool
    requires size { IsSize bytes }
    requires length { length slots.old ≡ 1024 }
    requires kept { AreKept ram.old.bytes slots.old }
    ensures answer { result ≡ is_some (ram_store ram.old.bytes addr bytes value) }
    ensures after { ram.new ≡ stored_ram ram.old addr bytes value }
    ensures kept { AreKept ram.new.bytes slots.new }
{
    slots[slot_of(addr)].addr = 1;
    ram.store(addr, bytes, value)
}
