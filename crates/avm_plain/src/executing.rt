//! One instruction.

ghost use Rattle.std.specs.Prelude.{◌≡◌, ◌<◌, ◌-◌, ◌*◌, ◌%◌, ◌^◌, All, IfOk};
ghost use Rattle.avm_model.specs.Values.{bytes_of, load_width as load_width_lem, store_width as store_width_lem};
ghost use Rattle.avm_model.specs.Exec.{result as result_lem, jump as jump_lem, branch as branch_lem, load as load_lem, store as store_lem, executed};
ghost use Rattle.avm_model.specs.Machine.{board as bus, flat, exec_flat};
ghost use Rattle.avm_plain.specs.Outcome.{outcome_of, CountsOne};

use crate::board::{Board, BoardLoad, board_load, board_store};
use crate::hart::{Hart, gives, next, next_pc, offset, put_and_go, reg};
use crate::memory::ram_load;
use crate::values::{imm_value, is_taken, load_value, mul_value, reg_value};
use crate::words::decode;
use avm_model::{Inst, LoadOp, StoreOp, Width};
use std::alloc::AllocError;

/// What an instruction gives: the hart and the board after it; else a question or a halt, and both stay.
#[derive(Drop)]
pub enum Outcome {
    Goes(Hart, Board),
    Waits,
    Stops { cause: u32, value: u32 },
}

fn load_width(op: LoadOp) -> Width
    ensures { result ≡ load_width_lem op }
{
    match op {
        LoadOp::Lb | LoadOp::Lbu => Width::Byte,
        LoadOp::Lh | LoadOp::Lhu => Width::Half,
        LoadOp::Lw => Width::Word,
    }
}

fn store_width(op: StoreOp) -> Width
    ensures { result ≡ store_width_lem op }
{
    match op {
        StoreOp::Sb => Width::Byte,
        StoreOp::Sh => Width::Half,
        StoreOp::Sw => Width::Word,
    }
}

/// The low bytes of a value.
fn low_bytes(width: Width, value: u32) -> u32
    ensures { result ≡ value % 2 ^ (8 * bytes_of width) }
{
    match width {
        Width::Byte => value % 0x100,
        Width::Half => value % 0x1_0000,
        Width::Word => value,
    }
}

fn finish(hart: Hart, board: Board, rd: u8, value: u32) -> Outcome
    ensures value { outcome_of result ≡ result_lem hart board rd value }
    ensures counted { CountsOne board.devices.peers result }
{
    Outcome::Goes(gives(hart, rd, value), board)
}

fn jump(hart: Hart, board: Board, rd: u8, target: u32) -> Outcome
    ensures value { outcome_of result ≡ jump_lem hart board rd target }
    ensures counted { CountsOne board.devices.peers result }
{
    if target % 4 != 0 {
        return Outcome::Stops {
            cause: 4,
            value: target,
        };
    }
    let link = next_pc(&hart);
    Outcome::Goes(put_and_go(hart, rd, link, target), board)
}

fn branch(mut hart: Hart, board: Board, taken: bool, target: u32) -> Outcome
    ensures value { outcome_of result ≡ branch_lem hart board taken target }
    ensures counted { CountsOne board.devices.peers result }
{
    if !taken {
        return Outcome::Goes(next(hart), board);
    }
    if target % 4 != 0 {
        return Outcome::Stops {
            cause: 4,
            value: target,
        };
    }
    hart.pc = target;
    Outcome::Goes(hart, board)
}

fn load(hart: Hart, board: Board, op: LoadOp, rd: u8, address: u32) -> Outcome
    ensures value { outcome_of result ≡ load_lem (bus flat) hart board op rd address }
    ensures counted { CountsOne board.devices.peers result }
{
    let width = load_width(op);
    if address % width.bytes() != 0 {
        return Outcome::Stops {
            cause: 5,
            value: address,
        };
    }
    match board_load(board, address, width) {
        BoardLoad::Gave(value, board) => {
            Outcome::Goes(gives(hart, rd, load_value(op, value)), board)
        }
        BoardLoad::NotMapped => Outcome::Stops {
            cause: 7,
            value: address,
        },
        BoardLoad::NoClock => Outcome::Waits,
    }
}

fn store(
    hart: Hart,
    board: Board,
    op: StoreOp,
    address: u32,
    value: u32,
) -> Result<Outcome, AllocError>
    requires { All (λ p. p.sent < 2 ^ 64 - 1) board.devices.peers }
    ensures value { IfOk result (λ o. outcome_of o ≡ store_lem (bus flat) hart board op address value) }
    ensures counted { IfOk result (λ o. CountsOne board.devices.peers o) }
{
    let width = store_width(op);
    if address % width.bytes() != 0 {
        return Ok(Outcome::Stops {
            cause: 6,
            value: address,
        });
    }
    match board_store(board, address, width, low_bytes(width, value))? {
        Some(board) => Ok(Outcome::Goes(next(hart), board)),
        None => Ok(Outcome::Stops {
            cause: 8,
            value: address,
        }),
    }
}

/// An instruction (RISC-V Unprivileged ISA, "RV32I Base Integer Instruction Set" and "M Extension").
pub fn execute(hart: Hart, board: Board, inst: Inst) -> Result<Outcome, AllocError>
    requires { All (λ p. p.sent < 2 ^ 64 - 1) board.devices.peers }
    ensures value { IfOk result (λ o. outcome_of o ≡ executed (bus flat) hart board inst) }
    ensures counted { IfOk result (λ o. CountsOne board.devices.peers o) }
{
    match inst {
        Inst::Lui { rd, imm } => Ok(finish(hart, board, rd, imm)),
        Inst::Auipc { rd, imm } => {
            let value = offset(hart.pc, imm);
            Ok(finish(hart, board, rd, value))
        }
        Inst::Jal { rd, imm } => {
            let target = offset(hart.pc, imm);
            Ok(jump(hart, board, rd, target))
        }
        Inst::Jalr { rd, rs1, imm } => {
            let target = offset(reg(&hart, rs1), imm) / 2 * 2;
            Ok(jump(hart, board, rd, target))
        }
        Inst::Branch { op, rs1, rs2, imm } => {
            let taken = is_taken(op, reg(&hart, rs1), reg(&hart, rs2));
            let target = offset(hart.pc, imm);
            Ok(branch(hart, board, taken, target))
        }
        Inst::Load { op, rd, rs1, imm } => {
            let address = offset(reg(&hart, rs1), imm);
            Ok(load(hart, board, op, rd, address))
        }
        Inst::Store { op, rs1, rs2, imm } => {
            let address = offset(reg(&hart, rs1), imm);
            let value = reg(&hart, rs2);
            store(hart, board, op, address, value)
        }
        Inst::Imm { op, rd, rs1, imm } => {
            let value = imm_value(op, reg(&hart, rs1), imm);
            Ok(finish(hart, board, rd, value))
        }
        Inst::Op { op, rd, rs1, rs2 } => {
            let value = reg_value(op, reg(&hart, rs1), reg(&hart, rs2));
            Ok(finish(hart, board, rd, value))
        }
        Inst::Mul { op, rd, rs1, rs2 } => {
            let value = mul_value(op, reg(&hart, rs1), reg(&hart, rs2));
            Ok(finish(hart, board, rd, value))
        }
        Inst::Fence => Ok(Outcome::Goes(next(hart), board)),
        Inst::Ecall => Ok(Outcome::Stops {
            cause: 1,
            value: reg(&hart, 10),
        }),
        Inst::Ebreak => Ok(Outcome::Stops {
            cause: 2,
            value: hart.pc,
        }),
    }
}

/// The instruction at pc.
#[tactic(auto, unfolding(avm_model::specs::Machine::exec_flat))]
pub fn run(hart: Hart, board: Board) -> Result<Outcome, AllocError>
    requires { All (λ p. p.sent < 2 ^ 64 - 1) board.devices.peers }
    ensures value { IfOk result (λ o. outcome_of o ≡ exec_flat hart board) }
    ensures counted { IfOk result (λ o. CountsOne board.devices.peers o) }
{
    let Some(word) = ram_load(board.ram.as_slice(), hart.pc, Width::Word) else {
        return Ok(Outcome::Stops {
            cause: 9,
            value: hart.pc,
        });
    };
    match decode(word) {
        Some(inst) => execute(hart, board, inst),
        None => Ok(Outcome::Stops {
            cause: 3,
            value: word,
        }),
    }
}
