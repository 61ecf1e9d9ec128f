//! The operation of a row: by its functions, within an opcode.

ghost use Rattle.std.specs.Prelude.{◌≡◌, ◌<◌};
ghost use Rattle.avm_model.specs.Decode.{branch_op, load_op, store_op, imm_op, imm_of, reg_op, mul_op};

use crate::fields::{bits, immediate};
use avm_model::{BranchOp, ImmOp, LoadOp, MulOp, RegOp, StoreOp};

pub fn branch(funct3: u32) -> Option<BranchOp>
    ensures { result ≡ branch_op funct3 }
{
    match funct3 {
        0 => Some(BranchOp::Beq),
        1 => Some(BranchOp::Bne),
        4 => Some(BranchOp::Blt),
        5 => Some(BranchOp::Bge),
        6 => Some(BranchOp::Bltu),
        7 => Some(BranchOp::Bgeu),
        _ => None,
    }
}

pub fn load(funct3: u32) -> Option<LoadOp>
    ensures { result ≡ load_op funct3 }
{
    match funct3 {
        0 => Some(LoadOp::Lb),
        1 => Some(LoadOp::Lh),
        2 => Some(LoadOp::Lw),
        4 => Some(LoadOp::Lbu),
        5 => Some(LoadOp::Lhu),
        _ => None,
    }
}

pub fn store(funct3: u32) -> Option<StoreOp>
    ensures { result ≡ store_op funct3 }
{
    match funct3 {
        0 => Some(StoreOp::Sb),
        1 => Some(StoreOp::Sh),
        2 => Some(StoreOp::Sw),
        _ => None,
    }
}

pub fn by_immediate(funct3: u32, funct7: u32) -> Option<ImmOp>
    requires { funct3 < 8 }
    ensures { result ≡ imm_op funct3 funct7 }
{
    match (funct3, funct7) {
        (0, _) => Some(ImmOp::Addi),
        (2, _) => Some(ImmOp::Slti),
        (3, _) => Some(ImmOp::Sltiu),
        (4, _) => Some(ImmOp::Xori),
        (6, _) => Some(ImmOp::Ori),
        (7, _) => Some(ImmOp::Andi),
        (1, 0) => Some(ImmOp::Slli),
        (5, 0) => Some(ImmOp::Srli),
        (5, 32) => Some(ImmOp::Srai),
        _ => None,
    }
}

pub fn immediate_of(op: ImmOp, word: u32) -> u32
    ensures { result ≡ imm_of op word }
{
    match op {
        ImmOp::Slli | ImmOp::Srli | ImmOp::Srai => bits(word, 20, 5),
        _ => immediate(word),
    }
}

pub fn register(funct3: u32, funct7: u32) -> Option<RegOp>
    requires { funct3 < 8 }
    ensures { result ≡ reg_op funct3 funct7 }
{
    match (funct7, funct3) {
        (0, 0) => Some(RegOp::Add),
        (0, 1) => Some(RegOp::Sll),
        (0, 2) => Some(RegOp::Slt),
        (0, 3) => Some(RegOp::Sltu),
        (0, 4) => Some(RegOp::Xor),
        (0, 5) => Some(RegOp::Srl),
        (0, 6) => Some(RegOp::Or),
        (0, _) => Some(RegOp::And),
        (32, 0) => Some(RegOp::Sub),
        (32, 5) => Some(RegOp::Sra),
        _ => None,
    }
}

pub fn product(funct3: u32) -> MulOp
    requires { funct3 < 8 }
    ensures { result ≡ mul_op funct3 }
{
    match funct3 {
        0 => MulOp::Mul,
        1 => MulOp::Mulh,
        2 => MulOp::Mulhsu,
        3 => MulOp::Mulhu,
        4 => MulOp::Div,
        5 => MulOp::Divu,
        6 => MulOp::Rem,
        _ => MulOp::Remu,
    }
}
