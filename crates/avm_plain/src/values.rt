//! What an instruction computes, in whole numbers.

ghost use Rattle.std.specs.Prelude.{◌≡◌, ◌<◌, ◌*◌, ◌^◌};
ghost use Rattle.avm_model.specs.Values.{reg_value as reg_value_lem, imm_value as imm_value_lem, mul_value as mul_value_lem, is_taken as is_taken_lem, load_value as load_value_lem, load_width, bytes_of, upper as upper_lem};

use avm_model::{BranchOp, ImmOp, LoadOp, MulOp, RegOp};

/// The upper 32 bits of a product.
fn upper(product: i64) -> u32
    ensures { result ≡ upper_lem product }
{
    (product.cast_unsigned() / 0x1_0000_0000) as u32
}

fn less_signed(a: u32, b: u32) -> bool
    ensures { result ≡ is_taken_lem BranchOp.Blt a b }
{
    a.cast_signed() < b.cast_signed()
}

fn add(a: u32, b: u32) -> u32
    ensures { result ≡ reg_value_lem RegOp.Add a b }
{
    ((a as u64 + b as u64) % 0x1_0000_0000) as u32
}

fn subtract(a: u32, b: u32) -> u32
    ensures { result ≡ reg_value_lem RegOp.Sub a b }
{
    ((a as u64 + 0x1_0000_0000 - b as u64) % 0x1_0000_0000) as u32
}

fn shift_left(a: u32, b: u32) -> u32
    ensures { result ≡ reg_value_lem RegOp.Sll a b }
{
    a << (b % 32)
}

fn shift_right(a: u32, b: u32) -> u32
    ensures { result ≡ reg_value_lem RegOp.Srl a b }
{
    a >> (b % 32)
}

fn shift_signed(a: u32, b: u32) -> u32
    ensures { result ≡ reg_value_lem RegOp.Sra a b }
{
    (a.cast_signed() >> (b % 32)).cast_unsigned()
}

/// What an operation on two registers gives.
pub fn reg_value(op: RegOp, a: u32, b: u32) -> u32
    ensures { result ≡ reg_value_lem op a b }
{
    match op {
        RegOp::Add => add(a, b),
        RegOp::Sub => subtract(a, b),
        RegOp::Sll => shift_left(a, b),
        RegOp::Slt => less_signed(a, b) as u32,
        RegOp::Sltu => (a < b) as u32,
        RegOp::Xor => a ^ b,
        RegOp::Srl => shift_right(a, b),
        RegOp::Sra => shift_signed(a, b),
        RegOp::Or => a | b,
        RegOp::And => a & b,
    }
}

/// What an operation on a register and an immediate gives.
pub fn imm_value(op: ImmOp, a: u32, b: u32) -> u32
    ensures { result ≡ imm_value_lem op a b }
{
    match op {
        ImmOp::Addi => reg_value(RegOp::Add, a, b),
        ImmOp::Slti => reg_value(RegOp::Slt, a, b),
        ImmOp::Sltiu => reg_value(RegOp::Sltu, a, b),
        ImmOp::Xori => reg_value(RegOp::Xor, a, b),
        ImmOp::Ori => reg_value(RegOp::Or, a, b),
        ImmOp::Andi => reg_value(RegOp::And, a, b),
        ImmOp::Slli => reg_value(RegOp::Sll, a, b),
        ImmOp::Srli => reg_value(RegOp::Srl, a, b),
        ImmOp::Srai => reg_value(RegOp::Sra, a, b),
    }
}

fn product(a: u32, b: u32) -> u64
    ensures { result ≡ a * b }
{
    a as u64 * b as u64
}

fn product_signed(a: u32, b: u32) -> u32
    ensures { result ≡ mul_value_lem MulOp.Mulh a b }
{
    upper(a.cast_signed() as i64 * b.cast_signed() as i64)
}

fn product_mixed(a: u32, b: u32) -> u32
    ensures { result ≡ mul_value_lem MulOp.Mulhsu a b }
{
    upper(a.cast_signed() as i64 * b as i64)
}

fn quotient_signed(a: u32, b: u32) -> u32
    ensures { result ≡ mul_value_lem MulOp.Div a b }
{
    if b == 0 {
        return 0xffff_ffff;
    }
    a.cast_signed()
        .wrapping_div(b.cast_signed())
        .cast_unsigned()
}

fn quotient(a: u32, b: u32) -> u32
    ensures { result ≡ mul_value_lem MulOp.Divu a b }
{
    if b == 0 { 0xffff_ffff } else { a / b }
}

fn remainder_signed(a: u32, b: u32) -> u32
    ensures { result ≡ mul_value_lem MulOp.Rem a b }
{
    if b == 0 {
        return a;
    }
    a.cast_signed()
        .wrapping_rem(b.cast_signed())
        .cast_unsigned()
}

fn remainder(a: u32, b: u32) -> u32
    ensures { result ≡ mul_value_lem MulOp.Remu a b }
{
    if b == 0 { a } else { a % b }
}

/// What an operation of the extension for products and quotients gives.
pub fn mul_value(op: MulOp, a: u32, b: u32) -> u32
    ensures { result ≡ mul_value_lem op a b }
{
    match op {
        MulOp::Mul => (product(a, b) % 0x1_0000_0000) as u32,
        MulOp::Mulh => product_signed(a, b),
        MulOp::Mulhsu => product_mixed(a, b),
        MulOp::Mulhu => (product(a, b) / 0x1_0000_0000) as u32,
        MulOp::Div => quotient_signed(a, b),
        MulOp::Divu => quotient(a, b),
        MulOp::Rem => remainder_signed(a, b),
        MulOp::Remu => remainder(a, b),
    }
}

/// Whether a branch is taken.
pub fn is_taken(op: BranchOp, a: u32, b: u32) -> bool
    ensures { result ≡ is_taken_lem op a b }
{
    match op {
        BranchOp::Beq => a == b,
        BranchOp::Bne => a != b,
        BranchOp::Blt => less_signed(a, b),
        BranchOp::Bge => !less_signed(a, b),
        BranchOp::Bltu => a < b,
        BranchOp::Bgeu => b <= a,
    }
}

/// What a load puts into the register.
pub fn load_value(op: LoadOp, value: u32) -> u32
    requires { value < 2 ^ (8 * bytes_of (load_width op)) }
    ensures { result ≡ load_value_lem op value }
{
    match op {
        LoadOp::Lb => if value < 0x80 {
            value
        } else {
            value + 0xffff_ff00
        },
        LoadOp::Lh => if value < 0x8000 {
            value
        } else {
            value + 0xffff_0000
        },
        LoadOp::Lw | LoadOp::Lbu | LoadOp::Lhu => value,
    }
}
