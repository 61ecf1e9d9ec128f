//! The word of an instruction.

ghost use Rattle.std.specs.Prelude.{◌≡◌, ◌<◌, true, false, Some};
ghost use Rattle.avm_model.specs.Decode.{decoded, is_shift, FitsSigned, HasWord};

use crate::codes::{branch_code, load_code, product_code, register_code, store_code};
use crate::words::{assembled, branch_word, immediate_word, jump_word, store_word, upper_word};
use avm_model::{ImmOp, Inst};

/// The word of a shift by an amount from 0 to 31.
fn shift_word(op: ImmOp, rd: u8, rs1: u8, amount: u32) -> u32
    requires op { is_shift op ≡ true }
    requires rd { rd < 32 }
    requires rs1 { rs1 < 32 }
    requires amount { amount < 32 }
    ensures { decoded result ≡ Some (Inst.Imm op rd rs1 amount) }
{
    let (funct3, funct7) = match op {
        ImmOp::Slli => (1, 0),
        ImmOp::Srli => (5, 0),
        _ => (5, 32),
    };
    assembled(0x13, rd as u32, funct3, rs1 as u32, amount, funct7)
}

/// The word of any other operation on an immediate.
fn imm_word(op: ImmOp, rd: u8, rs1: u8, imm: u32) -> u32
    requires op { is_shift op ≡ false }
    requires rd { rd < 32 }
    requires rs1 { rs1 < 32 }
    requires imm { FitsSigned 12 imm }
    ensures { decoded result ≡ Some (Inst.Imm op rd rs1 imm) }
{
    let funct3 = match op {
        ImmOp::Addi => 0,
        ImmOp::Slti => 2,
        ImmOp::Sltiu => 3,
        ImmOp::Xori => 4,
        ImmOp::Ori => 6,
        _ => 7,
    };
    immediate_word(0x13, rd, funct3, rs1, imm)
}

/// The word of an instruction, which `decode` gives back; FENCE has the word `0000000f`.
///
/// Registers are below 32, and the immediate is one that the instruction's format can hold.
pub fn encode(inst: Inst) -> u32
    requires { HasWord inst }
    ensures word { decoded result ≡ Some inst }
    ensures fence { inst ≡ Inst.Fence → result ≡ 15 }
{
    match inst {
        Inst::Lui { rd, imm } => upper_word(0x37, rd, imm),
        Inst::Auipc { rd, imm } => upper_word(0x17, rd, imm),
        Inst::Jal { rd, imm } => jump_word(rd, imm),
        Inst::Jalr { rd, rs1, imm } => immediate_word(0x67, rd, 0, rs1, imm),
        Inst::Branch { op, rs1, rs2, imm } => branch_word(branch_code(op), rs1, rs2, imm),
        Inst::Load { op, rd, rs1, imm } => immediate_word(0x03, rd, load_code(op), rs1, imm),
        Inst::Store { op, rs1, rs2, imm } => store_word(store_code(op), rs1, rs2, imm),
        Inst::Imm { op, rd, rs1, imm } => match op {
            ImmOp::Slli | ImmOp::Srli | ImmOp::Srai => shift_word(op, rd, rs1, imm),
            _ => imm_word(op, rd, rs1, imm),
        },
        Inst::Op { op, rd, rs1, rs2 } => {
            let (funct3, funct7) = register_code(op);
            assembled(0x33, rd as u32, funct3, rs1 as u32, rs2 as u32, funct7)
        }
        Inst::Mul { op, rd, rs1, rs2 } => {
            let funct3 = product_code(op);
            assembled(0x33, rd as u32, funct3, rs1 as u32, rs2 as u32, 1)
        }
        Inst::Fence => 0x0000_000f,
        Inst::Ecall => 0x0000_0073,
        Inst::Ebreak => 0x0010_0073,
    }
}
