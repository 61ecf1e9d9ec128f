//! The registers.

ghost use Rattle.std.specs.Prelude.{◌≡◌, ◌+◌, ◌%◌, ◌^◌};
ghost use Rattle.avm_model.specs.Hart.{reg as reg_lem, put, next as next_lem, gives as gives_lem};

use std::marker::Model;

/// The registers x0 to x31, and pc, the address of the next instruction.
#[derive(Drop)]
pub struct Hart {
    pub x: [u32; 32],
    pub pc: u32,
}

impl Model for Hart {
    ghost use Rattle.avm_model.specs.Hart.{HartState};

    ghost Value = { HartState };

    ghost view = { λ h. record { x = h.x; pc = h.pc } };
}

/// The same registers.
pub fn copy_hart(hart: &Hart) -> Hart
    ensures { result ≡ hart.now }
{
    Hart {
        x: hart.x,
        pc: hart.pc,
    }
}

/// What stands in register `r`; past x31 that is 0.
pub fn reg(hart: &Hart, r: u8) -> u32
    ensures { result ≡ reg_lem hart.now r }
{
    if r < 32 { hart.x[r as usize] } else { 0 }
}

/// The address behind the instruction at pc.
pub fn next_pc(hart: &Hart) -> u32
    ensures { result ≡ (hart.now.pc + 4) % 2 ^ 32 }
{
    ((hart.pc as u64 + 4) % 0x1_0000_0000) as u32
}

/// The sum of an address and an offset.
pub fn offset(address: u32, imm: u32) -> u32
    ensures { result ≡ (address + imm) % 2 ^ 32 }
{
    ((address as u64 + imm as u64) % 0x1_0000_0000) as u32
}

/// Register `rd` takes the value, unless it is x0, and pc the address.
pub fn put_and_go(mut hart: Hart, rd: u8, value: u32, pc: u32) -> Hart
    ensures { result ≡ record { x = put hart.x rd value; pc = pc } }
{
    if rd != 0 && rd < 32 {
        hart.x[rd as usize] = value;
    }
    hart.pc = pc;
    hart
}

/// The registers behind an instruction that does not jump.
pub fn next(mut hart: Hart) -> Hart
    ensures { result ≡ next_lem hart }
{
    hart.pc = next_pc(&hart);
    hart
}

/// The registers behind an instruction whose result is the value.
pub fn gives(hart: Hart, rd: u8, value: u32) -> Hart
    ensures { result ≡ gives_lem hart rd value }
{
    let pc = next_pc(&hart);
    put_and_go(hart, rd, value, pc)
}
