//! The fields and immediates of a word.

ghost use Rattle.std.specs.Prelude.{◌≡◌, ◌≤◌, ◌<◌, ◌+◌, ◌/◌, ◌%◌, ◌^◌};
ghost use Rattle.avm_model.specs.Word.{sign_extend, opcode_of, rd_of, rs1_of, rs2_of, funct3_of, funct7_of, imm_i, imm_s, imm_b, imm_u, imm_j};

/// `width` bits of the word, from bit `low` on.
pub fn bits(word: u32, low: u32, width: u32) -> u32
    requires inside { low + width ≤ 32 }
    requires some { 0 < width }
    requires narrow { width < 32 }
    ensures { result ≡ word / 2 ^ low % 2 ^ width }
{
    (word >> low) & ((1 << width) - 1)
}

pub fn sign_extended(value: u32, width: u32) -> u32
    requires low { 1 ≤ width }
    requires high { width < 32 }
    requires value { value < 2 ^ width }
    ensures { result ≡ sign_extend width value }
{
    if value < 1 << (width - 1) {
        value
    } else {
        value + (u32::MAX - ((1 << width) - 1))
    }
}

pub fn opcode(word: u32) -> u32
    ensures { result ≡ opcode_of word }
{
    bits(word, 0, 7)
}

pub fn rd(word: u32) -> u8
    ensures { result ≡ rd_of word }
{
    bits(word, 7, 5) as u8
}

pub fn funct3(word: u32) -> u32
    ensures { result ≡ funct3_of word }
{
    bits(word, 12, 3)
}

pub fn rs1(word: u32) -> u8
    ensures { result ≡ rs1_of word }
{
    bits(word, 15, 5) as u8
}

pub fn rs2(word: u32) -> u8
    ensures { result ≡ rs2_of word }
{
    bits(word, 20, 5) as u8
}

pub fn funct7(word: u32) -> u32
    ensures { result ≡ funct7_of word }
{
    word >> 25
}

pub fn upper(word: u32) -> u32
    ensures { result ≡ imm_u word }
{
    word >> 12 << 12
}

pub fn immediate(word: u32) -> u32
    ensures { result ≡ imm_i word }
{
    sign_extended(word >> 20, 12)
}

pub fn store_offset(word: u32) -> u32
    ensures { result ≡ imm_s word }
{
    sign_extended((word >> 25 << 5) + bits(word, 7, 5), 12)
}

pub fn branch_offset(word: u32) -> u32
    ensures { result ≡ imm_b word }
{
    let high = (word >> 31 << 12) + (bits(word, 7, 1) << 11);
    sign_extended(
        high + (bits(word, 25, 6) << 5) + (bits(word, 8, 4) << 1),
        13,
    )
}

pub fn jump_offset(word: u32) -> u32
    ensures { result ≡ imm_j word }
{
    let high = (word >> 31 << 20) + (bits(word, 12, 8) << 12);
    sign_extended(
        high + (bits(word, 20, 1) << 11) + (bits(word, 21, 10) << 1),
        21,
    )
}
