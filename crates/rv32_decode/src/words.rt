//! A word, put together from the fields of its format.

ghost use Rattle.std.specs.Prelude.{◌≡◌, ◌<◌, ◌%◌, ◌^◌};
ghost use Rattle.avm_model.specs.Word.{opcode_of, rd_of, rs1_of, rs2_of, funct3_of, funct7_of, imm_i, imm_s, imm_b, imm_u, imm_j};
ghost use Rattle.avm_model.specs.Decode.{FitsSigned};

/// The word of these fields.
pub fn assembled(opcode: u32, rd: u32, funct3: u32, rs1: u32, rs2: u32, funct7: u32) -> u32
    requires opcode { opcode < 2 ^ 7 }
    requires rd { rd < 2 ^ 5 }
    requires funct3 { funct3 < 2 ^ 3 }
    requires rs1 { rs1 < 2 ^ 5 }
    requires rs2 { rs2 < 2 ^ 5 }
    requires funct7 { funct7 < 2 ^ 7 }
    ensures opcode { opcode_of result ≡ opcode }
    ensures rd { rd_of result ≡ rd }
    ensures funct3 { funct3_of result ≡ funct3 }
    ensures rs1 { rs1_of result ≡ rs1 }
    ensures rs2 { rs2_of result ≡ rs2 }
    ensures funct7 { funct7_of result ≡ funct7 }
{
    opcode + (rd << 7) + (funct3 << 12) + (rs1 << 15) + (rs2 << 20) + (funct7 << 25)
}

pub fn upper_word(opcode: u32, rd: u8, imm: u32) -> u32
    requires opcode { opcode < 2 ^ 7 }
    requires rd { rd < 32 }
    requires imm { imm % 2 ^ 12 ≡ 0 }
    ensures opcode { opcode_of result ≡ opcode }
    ensures rd { rd_of result ≡ rd }
    ensures imm { imm_u result ≡ imm }
{
    opcode + ((rd as u32) << 7) + imm
}

pub fn immediate_word(opcode: u32, rd: u8, funct3: u32, rs1: u8, imm: u32) -> u32
    requires opcode { opcode < 2 ^ 7 }
    requires rd { rd < 32 }
    requires funct3 { funct3 < 8 }
    requires rs1 { rs1 < 32 }
    requires imm { FitsSigned 12 imm }
    ensures opcode { opcode_of result ≡ opcode }
    ensures rd { rd_of result ≡ rd }
    ensures funct3 { funct3_of result ≡ funct3 }
    ensures rs1 { rs1_of result ≡ rs1 }
    ensures imm { imm_i result ≡ imm }
{
    assembled(
        opcode,
        rd as u32,
        funct3,
        rs1 as u32,
        imm % 32,
        imm / 32 % 128,
    )
}

pub fn store_word(funct3: u32, rs1: u8, rs2: u8, imm: u32) -> u32
    requires funct3 { funct3 < 8 }
    requires rs1 { rs1 < 32 }
    requires rs2 { rs2 < 32 }
    requires imm { FitsSigned 12 imm }
    ensures opcode { opcode_of result ≡ 35 }
    ensures funct3 { funct3_of result ≡ funct3 }
    ensures rs1 { rs1_of result ≡ rs1 }
    ensures rs2 { rs2_of result ≡ rs2 }
    ensures imm { imm_s result ≡ imm }
{
    assembled(
        0x23,
        imm % 32,
        funct3,
        rs1 as u32,
        rs2 as u32,
        imm / 32 % 128,
    )
}

pub fn branch_word(funct3: u32, rs1: u8, rs2: u8, imm: u32) -> u32
    requires funct3 { funct3 < 8 }
    requires rs1 { rs1 < 32 }
    requires rs2 { rs2 < 32 }
    requires imm { FitsSigned 13 imm }
    requires even { imm % 2 ≡ 0 }
    ensures opcode { opcode_of result ≡ 99 }
    ensures funct3 { funct3_of result ≡ funct3 }
    ensures rs1 { rs1_of result ≡ rs1 }
    ensures rs2 { rs2_of result ≡ rs2 }
    ensures imm { imm_b result ≡ imm }
{
    let rd = (imm >> 11) % 2 + (imm >> 1 << 1) % 32;
    let funct7 = ((imm >> 12) % 2 << 6) + (imm >> 5) % 64;
    assembled(0x63, rd, funct3, rs1 as u32, rs2 as u32, funct7)
}

pub fn jump_word(rd: u8, imm: u32) -> u32
    requires rd { rd < 32 }
    requires imm { FitsSigned 21 imm }
    requires even { imm % 2 ≡ 0 }
    ensures opcode { opcode_of result ≡ 111 }
    ensures rd { rd_of result ≡ rd }
    ensures imm { imm_j result ≡ imm }
{
    let low = ((imm >> 11) % 2 << 20) + ((imm >> 1) % 1024 << 21);
    0x6f + ((rd as u32) << 7) + ((imm >> 12) % 256 << 12) + low + ((imm >> 20) % 2 << 31)
}
