//! The instruction of a word.

ghost use Rattle.std.specs.Prelude.{◌≡◌, IfSome};
ghost use Rattle.avm_model.specs.Decode.{decoded, HasWord};

use crate::fields::{
    branch_offset, funct3, funct7, immediate, jump_offset, opcode, rd, rs1, rs2, store_offset,
    upper,
};
use crate::rows::{branch, by_immediate, immediate_of, load, product, register, store};
use avm_model::Inst;

/// The instruction of a word, with its immediate sign-extended; `None` exactly where the word is none of RV32I's and M's
/// (RISC-V Unprivileged ISA, "RV32I Base Integer Instruction Set" and "M Extension for Integer Multiplication and Division").
///
/// The other fields of FENCE are passed over. The registers of an instruction are below 32.
pub fn decode(word: u32) -> Option<Inst>
    ensures value { result ≡ decoded word }
    ensures has_word { IfSome result (λ i. HasWord i) }
{
    match opcode(word) {
        0x37 => Some(Inst::Lui {
            rd: rd(word),
            imm: upper(word),
        }),
        0x17 => Some(Inst::Auipc {
            rd: rd(word),
            imm: upper(word),
        }),
        0x6f => Some(Inst::Jal {
            rd: rd(word),
            imm: jump_offset(word),
        }),
        0x67 => {
            if funct3(word) != 0 {
                return None;
            }
            Some(Inst::Jalr {
                rd: rd(word),
                rs1: rs1(word),
                imm: immediate(word),
            })
        }
        0x63 => {
            let op = branch(funct3(word))?;
            Some(Inst::Branch {
                op,
                rs1: rs1(word),
                rs2: rs2(word),
                imm: branch_offset(word),
            })
        }
        0x03 => {
            let op = load(funct3(word))?;
            Some(Inst::Load {
                op,
                rd: rd(word),
                rs1: rs1(word),
                imm: immediate(word),
            })
        }
        0x23 => {
            let op = store(funct3(word))?;
            Some(Inst::Store {
                op,
                rs1: rs1(word),
                rs2: rs2(word),
                imm: store_offset(word),
            })
        }
        0x13 => {
            let op = by_immediate(funct3(word), funct7(word))?;
            Some(Inst::Imm {
                op,
                rd: rd(word),
                rs1: rs1(word),
                imm: immediate_of(op, word),
            })
        }
        0x33 => {
            let (rd, rs1, rs2) = (rd(word), rs1(word), rs2(word));
            if funct7(word) == 1 {
                let op = product(funct3(word));
                return Some(Inst::Mul { op, rd, rs1, rs2 });
            }
            let op = register(funct3(word), funct7(word))?;
            Some(Inst::Op { op, rd, rs1, rs2 })
        }
        0x0f => {
            if funct3(word) != 0 {
                return None;
            }
            Some(Inst::Fence)
        }
        _ => match word {
            0x0000_0073 => Some(Inst::Ecall),
            0x0010_0073 => Some(Inst::Ebreak),
            _ => None,
        },
    }
}
