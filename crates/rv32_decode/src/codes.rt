//! The functions of an operation.

ghost use Rattle.std.specs.Prelude.{◌≡◌, ◌<◌, nat_eq, false, Some};
ghost use Rattle.avm_model.specs.Decode.{branch_op, load_op, store_op, reg_op, mul_op};

use avm_model::{BranchOp, LoadOp, MulOp, RegOp, StoreOp};

pub fn branch_code(op: BranchOp) -> u32
    ensures bound { result < 8 }
    ensures code { branch_op result ≡ Some op }
{
    match op {
        BranchOp::Beq => 0,
        BranchOp::Bne => 1,
        BranchOp::Blt => 4,
        BranchOp::Bge => 5,
        BranchOp::Bltu => 6,
        BranchOp::Bgeu => 7,
    }
}

pub fn load_code(op: LoadOp) -> u32
    ensures bound { result < 8 }
    ensures code { load_op result ≡ Some op }
{
    match op {
        LoadOp::Lb => 0,
        LoadOp::Lh => 1,
        LoadOp::Lw => 2,
        LoadOp::Lbu => 4,
        LoadOp::Lhu => 5,
    }
}

pub fn store_code(op: StoreOp) -> u32
    ensures bound { result < 8 }
    ensures code { store_op result ≡ Some op }
{
    match op {
        StoreOp::Sb => 0,
        StoreOp::Sh => 1,
        StoreOp::Sw => 2,
    }
}

pub fn register_code(op: RegOp) -> (u32, u32)
    ensures funct3 { result.0 < 8 }
    ensures funct7 { result.1 < 128 }
    ensures other { nat_eq result.1 1 ≡ false }
    ensures code { reg_op result.0 result.1 ≡ Some op }
{
    match op {
        RegOp::Add => (0, 0),
        RegOp::Sub => (0, 32),
        RegOp::Sll => (1, 0),
        RegOp::Slt => (2, 0),
        RegOp::Sltu => (3, 0),
        RegOp::Xor => (4, 0),
        RegOp::Srl => (5, 0),
        RegOp::Sra => (5, 32),
        RegOp::Or => (6, 0),
        RegOp::And => (7, 0),
    }
}

pub fn product_code(op: MulOp) -> u32
    ensures bound { result < 8 }
    ensures code { mul_op result ≡ op }
{
    match op {
        MulOp::Mul => 0,
        MulOp::Mulh => 1,
        MulOp::Mulhsu => 2,
        MulOp::Mulhu => 3,
        MulOp::Div => 4,
        MulOp::Divu => 5,
        MulOp::Rem => 6,
        MulOp::Remu => 7,
    }
}
