//! Words of an assembler, and how many words each opcode has.

use rv32_decode::{BranchOp, ImmOp, Inst, LoadOp, MulOp, RegOp, StoreOp, decode, encode};

const WORDS: [(u32, Inst); 57] = [
    (
        0x1234_51b7,
        Inst::Lui {
            rd: 3,
            imm: 0x1234_5000,
        },
    ),
    (
        0x1234_5197,
        Inst::Auipc {
            rd: 3,
            imm: 0x1234_5000,
        },
    ),
    (
        0xffff_ffb7,
        Inst::Lui {
            rd: 31,
            imm: 0xffff_f000,
        },
    ),
    (
        0xffff_ff97,
        Inst::Auipc {
            rd: 31,
            imm: 0xffff_f000,
        },
    ),
    (
        0x8000_00b7,
        Inst::Lui {
            rd: 1,
            imm: 0x8000_0000,
        },
    ),
    (
        0x8000_0097,
        Inst::Auipc {
            rd: 1,
            imm: 0x8000_0000,
        },
    ),
    (0x0010_00ef, Inst::Jal { rd: 1, imm: 2048 }),
    (
        0xffff_f06f,
        Inst::Jal {
            rd: 0,
            imm: 0xffff_fffe,
        },
    ),
    (
        0x7fff_ffef,
        Inst::Jal {
            rd: 31,
            imm: 0x000f_fffe,
        },
    ),
    (
        0x8000_08ef,
        Inst::Jal {
            rd: 17,
            imm: 0xfff0_0000,
        },
    ),
    (
        0x5a45_a2ef,
        Inst::Jal {
            rd: 5,
            imm: 0x0005_a5a4,
        },
    ),
    (
        0x8001_00e7,
        Inst::Jalr {
            rd: 1,
            rs1: 2,
            imm: 0xffff_f800,
        },
    ),
    (
        0x7fff_0fe7,
        Inst::Jalr {
            rd: 31,
            rs1: 30,
            imm: 2047,
        },
    ),
    (
        0x0020_80e3,
        Inst::Branch {
            op: BranchOp::Beq,
            rs1: 1,
            rs2: 2,
            imm: 2048,
        },
    ),
    (
        0xffef_9fe3,
        Inst::Branch {
            op: BranchOp::Bne,
            rs1: 31,
            rs2: 30,
            imm: 0xffff_fffe,
        },
    ),
    (
        0x8041_c063,
        Inst::Branch {
            op: BranchOp::Blt,
            rs1: 3,
            rs2: 4,
            imm: 0xffff_f000,
        },
    ),
    (
        0x7e62_dfe3,
        Inst::Branch {
            op: BranchOp::Bge,
            rs1: 5,
            rs2: 6,
            imm: 4094,
        },
    ),
    (
        0x5a83_e263,
        Inst::Branch {
            op: BranchOp::Bltu,
            rs1: 7,
            rs2: 8,
            imm: 1444,
        },
    ),
    (
        0x00a4_ff63,
        Inst::Branch {
            op: BranchOp::Bgeu,
            rs1: 9,
            rs2: 10,
            imm: 30,
        },
    ),
    (
        0xfff1_0083,
        Inst::Load {
            op: LoadOp::Lb,
            rd: 1,
            rs1: 2,
            imm: 0xffff_ffff,
        },
    ),
    (
        0x7ff2_1183,
        Inst::Load {
            op: LoadOp::Lh,
            rd: 3,
            rs1: 4,
            imm: 2047,
        },
    ),
    (
        0x8003_2283,
        Inst::Load {
            op: LoadOp::Lw,
            rd: 5,
            rs1: 6,
            imm: 0xffff_f800,
        },
    ),
    (
        0x001f_4f83,
        Inst::Load {
            op: LoadOp::Lbu,
            rd: 31,
            rs1: 30,
            imm: 1,
        },
    ),
    (
        0x5554_d003,
        Inst::Load {
            op: LoadOp::Lhu,
            rd: 0,
            rs1: 9,
            imm: 1365,
        },
    ),
    (
        0xfe20_8fa3,
        Inst::Store {
            op: StoreOp::Sb,
            rs1: 1,
            rs2: 2,
            imm: 0xffff_ffff,
        },
    ),
    (
        0x7fff_1fa3,
        Inst::Store {
            op: StoreOp::Sh,
            rs1: 30,
            rs2: 31,
            imm: 2047,
        },
    ),
    (
        0x8053_2023,
        Inst::Store {
            op: StoreOp::Sw,
            rs1: 6,
            rs2: 5,
            imm: 0xffff_f800,
        },
    ),
    (
        0xfff1_0093,
        Inst::Imm {
            op: ImmOp::Addi,
            rd: 1,
            rs1: 2,
            imm: 0xffff_ffff,
        },
    ),
    (
        0x7ff2_2193,
        Inst::Imm {
            op: ImmOp::Slti,
            rd: 3,
            rs1: 4,
            imm: 2047,
        },
    ),
    (
        0x8003_3293,
        Inst::Imm {
            op: ImmOp::Sltiu,
            rd: 5,
            rs1: 6,
            imm: 0xffff_f800,
        },
    ),
    (
        0x0054_4393,
        Inst::Imm {
            op: ImmOp::Xori,
            rd: 7,
            rs1: 8,
            imm: 5,
        },
    ),
    (
        0xffa5_6493,
        Inst::Imm {
            op: ImmOp::Ori,
            rd: 9,
            rs1: 10,
            imm: 0xffff_fffa,
        },
    ),
    (
        0x5556_7593,
        Inst::Imm {
            op: ImmOp::Andi,
            rd: 11,
            rs1: 12,
            imm: 1365,
        },
    ),
    (
        0x01f7_1693,
        Inst::Imm {
            op: ImmOp::Slli,
            rd: 13,
            rs1: 14,
            imm: 31,
        },
    ),
    (
        0x0018_5793,
        Inst::Imm {
            op: ImmOp::Srli,
            rd: 15,
            rs1: 16,
            imm: 1,
        },
    ),
    (
        0x41e9_5893,
        Inst::Imm {
            op: ImmOp::Srai,
            rd: 17,
            rs1: 18,
            imm: 30,
        },
    ),
    (
        0x00cf_80b3,
        Inst::Op {
            op: RegOp::Add,
            rd: 1,
            rs1: 31,
            rs2: 12,
        },
    ),
    (
        0x40df_0133,
        Inst::Op {
            op: RegOp::Sub,
            rd: 2,
            rs1: 30,
            rs2: 13,
        },
    ),
    (
        0x00ee_91b3,
        Inst::Op {
            op: RegOp::Sll,
            rd: 3,
            rs1: 29,
            rs2: 14,
        },
    ),
    (
        0x00fe_2233,
        Inst::Op {
            op: RegOp::Slt,
            rd: 4,
            rs1: 28,
            rs2: 15,
        },
    ),
    (
        0x010d_b2b3,
        Inst::Op {
            op: RegOp::Sltu,
            rd: 5,
            rs1: 27,
            rs2: 16,
        },
    ),
    (
        0x011d_4333,
        Inst::Op {
            op: RegOp::Xor,
            rd: 6,
            rs1: 26,
            rs2: 17,
        },
    ),
    (
        0x012c_d3b3,
        Inst::Op {
            op: RegOp::Srl,
            rd: 7,
            rs1: 25,
            rs2: 18,
        },
    ),
    (
        0x413c_5433,
        Inst::Op {
            op: RegOp::Sra,
            rd: 8,
            rs1: 24,
            rs2: 19,
        },
    ),
    (
        0x014b_e4b3,
        Inst::Op {
            op: RegOp::Or,
            rd: 9,
            rs1: 23,
            rs2: 20,
        },
    ),
    (
        0x015b_7533,
        Inst::Op {
            op: RegOp::And,
            rd: 10,
            rs1: 22,
            rs2: 21,
        },
    ),
    (
        0x02cf_80b3,
        Inst::Mul {
            op: MulOp::Mul,
            rd: 1,
            rs1: 31,
            rs2: 12,
        },
    ),
    (
        0x02df_1133,
        Inst::Mul {
            op: MulOp::Mulh,
            rd: 2,
            rs1: 30,
            rs2: 13,
        },
    ),
    (
        0x02ee_a1b3,
        Inst::Mul {
            op: MulOp::Mulhsu,
            rd: 3,
            rs1: 29,
            rs2: 14,
        },
    ),
    (
        0x02fe_3233,
        Inst::Mul {
            op: MulOp::Mulhu,
            rd: 4,
            rs1: 28,
            rs2: 15,
        },
    ),
    (
        0x030d_c2b3,
        Inst::Mul {
            op: MulOp::Div,
            rd: 5,
            rs1: 27,
            rs2: 16,
        },
    ),
    (
        0x031d_5333,
        Inst::Mul {
            op: MulOp::Divu,
            rd: 6,
            rs1: 26,
            rs2: 17,
        },
    ),
    (
        0x032c_e3b3,
        Inst::Mul {
            op: MulOp::Rem,
            rd: 7,
            rs1: 25,
            rs2: 18,
        },
    ),
    (
        0x033c_7433,
        Inst::Mul {
            op: MulOp::Remu,
            rd: 8,
            rs1: 24,
            rs2: 19,
        },
    ),
    (0x0000_000f, Inst::Fence),
    (0x0000_0073, Inst::Ecall),
    (0x0010_0073, Inst::Ebreak),
];

#[test]
fn words(rt: HostRuntime) {
    for &(word, inst) in &WORDS {
        let decoded = decode(word);
        assert_eq!(rt; decoded, Some(inst), "{word:08x}");
        if let Some(same) = decoded {
            assert_eq!(rt; encode(same), word);
        }
    }
}

/// The opcodes that have instructions, each with the number of pairs of funct3 and funct7 that it has, where all registers
/// are 0.
const PAIRS: [(u32, u32); 11] = [
    (0x37, 1024),
    (0x17, 1024),
    (0x6f, 1024),
    (0x67, 128),
    (0x63, 768),
    (0x03, 640),
    (0x23, 384),
    (0x13, 771),
    (0x33, 18),
    (0x0f, 128),
    (0x73, 1),
];

#[test]
fn counts(rt: HostRuntime) {
    for opcode in 0..128u32 {
        let mut count = 0u64;
        for functions in 0..1024u32 {
            if decode(opcode + (functions % 8 << 12) + (functions / 8 << 25)).is_some() {
                count = count.wrapping_add(1);
            }
        }
        let row = PAIRS.iter().find(|row| row.0 == opcode);
        let want = match row {
            Some(row) => row.1,
            None => 0,
        };
        assert_eq!(rt; count, want as u64, "{opcode:x}");
    }
    let fence = decode(0x8330_0f8f);
    assert!(rt; fence == Some(Inst::Fence));
}
