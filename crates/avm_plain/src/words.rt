//! The instruction of a word.

ghost use Rattle.std.specs.Prelude.{◌≡◌, ◌≤◌, ◌<◌, ◌+◌, ◌/◌, ◌%◌, ◌^◌};
ghost use Rattle.avm_model.specs.Word.{sign_extend, opcode_of, rd_of, rs1_of, rs2_of, funct3_of, funct7_of, imm_i as imm_i_lem, imm_s as imm_s_lem, imm_b as imm_b_lem, imm_u as imm_u_lem, imm_j as imm_j_lem};
ghost use Rattle.avm_model.specs.Decode.{decoded, branch_op as branch_op_lem, load_op as load_op_lem, store_op as store_op_lem, imm_op as imm_op_lem, imm_of as imm_of_lem, reg_op as reg_op_lem, mul_op as mul_op_lem};

use avm_model::{BranchOp, ImmOp, Inst, LoadOp, MulOp, RegOp, StoreOp};

fn rd(word: u32) -> u8
    ensures { result ≡ rd_of word }
{
    (word / 0x80 % 32) as u8
}

fn rs1(word: u32) -> u8
    ensures { result ≡ rs1_of word }
{
    (word / 0x8000 % 32) as u8
}

fn rs2(word: u32) -> u8
    ensures { result ≡ rs2_of word }
{
    (word / 0x10_0000 % 32) as u8
}

fn funct3(word: u32) -> u32
    ensures { result ≡ funct3_of word }
{
    word / 0x1000 % 8
}

fn funct7(word: u32) -> u32
    ensures { result ≡ funct7_of word }
{
    word / 0x200_0000
}

/// A number of `width` bits, read as signed, modulo 2 ^ 32.
fn sign_extended(width: u32, value: u32) -> u32
    requires low { 1 ≤ width }
    requires high { width < 32 }
    requires value { value < 2 ^ width }
    ensures { result ≡ sign_extend width value }
{
    if value < 1 << (width - 1) {
        value
    } else {
        value + (u32::MAX - ((1 << width) - 1))
    }
}

fn imm_i(word: u32) -> u32
    ensures { result ≡ imm_i_lem word }
{
    sign_extended(12, word / 0x10_0000)
}

fn imm_s(word: u32) -> u32
    ensures { result ≡ imm_s_lem word }
{
    sign_extended(12, word / 0x200_0000 * 32 + word / 0x80 % 32)
}

fn imm_b(word: u32) -> u32
    ensures { result ≡ imm_b_lem word }
{
    let high = word / 0x8000_0000 * 0x1000 + word / 0x80 % 2 * 0x800;
    sign_extended(
        13,
        high + word / 0x200_0000 % 64 * 32 + word / 0x100 % 16 * 2,
    )
}

fn imm_u(word: u32) -> u32
    ensures { result ≡ imm_u_lem word }
{
    word / 0x1000 * 0x1000
}

fn imm_j(word: u32) -> u32
    ensures { result ≡ imm_j_lem word }
{
    let high = word / 0x8000_0000 * 0x10_0000 + word / 0x1000 % 256 * 0x1000;
    sign_extended(
        21,
        high + word / 0x10_0000 % 2 * 0x800 + word / 0x20_0000 % 1024 * 2,
    )
}

fn branch_op(funct3: u32) -> Option<BranchOp>
    ensures { result ≡ branch_op_lem funct3 }
{
    match funct3 {
        0 => Some(BranchOp::Beq),
        1 => Some(BranchOp::Bne),
        4 => Some(BranchOp::Blt),
        5 => Some(BranchOp::Bge),
        6 => Some(BranchOp::Bltu),
        7 => Some(BranchOp::Bgeu),
        _ => None,
    }
}

fn load_op(funct3: u32) -> Option<LoadOp>
    ensures { result ≡ load_op_lem funct3 }
{
    match funct3 {
        0 => Some(LoadOp::Lb),
        1 => Some(LoadOp::Lh),
        2 => Some(LoadOp::Lw),
        4 => Some(LoadOp::Lbu),
        5 => Some(LoadOp::Lhu),
        _ => None,
    }
}

fn store_op(funct3: u32) -> Option<StoreOp>
    ensures { result ≡ store_op_lem funct3 }
{
    match funct3 {
        0 => Some(StoreOp::Sb),
        1 => Some(StoreOp::Sh),
        2 => Some(StoreOp::Sw),
        _ => None,
    }
}

fn imm_op(funct3: u32, funct7: u32) -> Option<ImmOp>
    requires { funct3 < 8 }
    ensures { result ≡ imm_op_lem funct3 funct7 }
{
    match (funct3, funct7) {
        (0, _) => Some(ImmOp::Addi),
        (1, 0) => Some(ImmOp::Slli),
        (2, _) => Some(ImmOp::Slti),
        (3, _) => Some(ImmOp::Sltiu),
        (4, _) => Some(ImmOp::Xori),
        (5, 0) => Some(ImmOp::Srli),
        (5, 32) => Some(ImmOp::Srai),
        (6, _) => Some(ImmOp::Ori),
        (7, _) => Some(ImmOp::Andi),
        _ => None,
    }
}

/// The immediate, which for a shift is its amount.
fn imm_of(op: ImmOp, word: u32) -> u32
    ensures { result ≡ imm_of_lem op word }
{
    match op {
        ImmOp::Slli | ImmOp::Srli | ImmOp::Srai => word / 0x10_0000 % 32,
        _ => imm_i(word),
    }
}

fn reg_op(funct3: u32, funct7: u32) -> Option<RegOp>
    requires { funct3 < 8 }
    ensures { result ≡ reg_op_lem funct3 funct7 }
{
    match (funct7, funct3) {
        (0, 0) => Some(RegOp::Add),
        (32, 0) => Some(RegOp::Sub),
        (0, 1) => Some(RegOp::Sll),
        (0, 2) => Some(RegOp::Slt),
        (0, 3) => Some(RegOp::Sltu),
        (0, 4) => Some(RegOp::Xor),
        (0, 5) => Some(RegOp::Srl),
        (32, 5) => Some(RegOp::Sra),
        (0, 6) => Some(RegOp::Or),
        (0, _) => Some(RegOp::And),
        _ => None,
    }
}

fn mul_op(funct3: u32) -> MulOp
    requires { funct3 < 8 }
    ensures { result ≡ mul_op_lem funct3 }
{
    match funct3 {
        0 => MulOp::Mul,
        1 => MulOp::Mulh,
        2 => MulOp::Mulhsu,
        3 => MulOp::Mulhu,
        4 => MulOp::Div,
        5 => MulOp::Divu,
        6 => MulOp::Rem,
        _ => MulOp::Remu,
    }
}

/// The instruction of a word of opcode 0110011.
fn decode_registers(word: u32) -> Option<Inst>
    requires { opcode_of word ≡ 51 }
    ensures { result ≡ decoded word }
{
    let (rd, rs1, rs2) = (rd(word), rs1(word), rs2(word));
    if funct7(word) == 1 {
        let op = mul_op(funct3(word));
        return Some(Inst::Mul { op, rd, rs1, rs2 });
    }
    let op = reg_op(funct3(word), funct7(word))?;
    Some(Inst::Op { op, rd, rs1, rs2 })
}

/// The instruction of a word, with its immediate sign-extended; None exactly where the word is no instruction of RV32I
/// or M (RISC-V Unprivileged ISA, "Instruction Set Listings").
pub fn decode(word: u32) -> Option<Inst>
    ensures { result ≡ decoded word }
{
    let (rd, rs1, rs2) = (rd(word), rs1(word), rs2(word));
    let funct3 = funct3(word);
    match word % 0x80 {
        0x37 => Some(Inst::Lui {
            rd,
            imm: imm_u(word),
        }),
        0x17 => Some(Inst::Auipc {
            rd,
            imm: imm_u(word),
        }),
        0x6f => Some(Inst::Jal {
            rd,
            imm: imm_j(word),
        }),
        0x67 if funct3 == 0 => Some(Inst::Jalr {
            rd,
            rs1,
            imm: imm_i(word),
        }),
        0x63 => {
            let op = branch_op(funct3)?;
            Some(Inst::Branch {
                op,
                rs1,
                rs2,
                imm: imm_b(word),
            })
        }
        0x03 => {
            let op = load_op(funct3)?;
            Some(Inst::Load {
                op,
                rd,
                rs1,
                imm: imm_i(word),
            })
        }
        0x23 => {
            let op = store_op(funct3)?;
            Some(Inst::Store {
                op,
                rs1,
                rs2,
                imm: imm_s(word),
            })
        }
        0x13 => {
            let op = imm_op(funct3, funct7(word))?;
            Some(Inst::Imm {
                op,
                rd,
                rs1,
                imm: imm_of(op, word),
            })
        }
        0x33 => decode_registers(word),
        0x0f if funct3 == 0 => Some(Inst::Fence),
        _ if word == 0x0000_0073 => Some(Inst::Ecall),
        _ if word == 0x0010_0073 => Some(Inst::Ebreak),
        _ => None,
    }
}
