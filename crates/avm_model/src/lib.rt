//! The words that the machine's contracts are written in: its instructions, and their meaning in `specs/`.
#![tactic(auto)]

mod judged;
mod laws;
mod loading;
mod log_laws;

ghost use Rattle.std.specs.Prelude.{◌≡◌};
ghost use Rattle.avm_model.specs.Values.{bytes_of};

pub use judged::{Mark, Marked, Verdict};
pub use laws::{
    entries_are_short, fronts_replay, judged_as_replayed, misplaced_inputs, one_first_fault,
    recorded_replays, reference_is_short, reference_is_timed, run_by_rules,
    version_one_has_no_bell,
};
pub use loading::{LoadFault, ProgramHeader};
pub use log_laws::{
    cover_is_greatest, hashes_are_the_chain, heads_are_short, heads_are_spelled_once,
    segments_have_their_pages,
};

/// A conditional branch.
#[derive(Clone, Copy, Debug, PartialEq, Eq)]
pub enum BranchOp {
    Beq,
    Bne,
    Blt,
    Bge,
    Bltu,
    Bgeu,
}

/// A load from memory.
#[derive(Clone, Copy, Debug, PartialEq, Eq)]
pub enum LoadOp {
    Lb,
    Lh,
    Lw,
    Lbu,
    Lhu,
}

/// A store to memory.
#[derive(Clone, Copy, Debug, PartialEq, Eq)]
pub enum StoreOp {
    Sb,
    Sh,
    Sw,
}

/// An operation on a register and an immediate.
#[derive(Clone, Copy, Debug, PartialEq, Eq)]
pub enum ImmOp {
    Addi,
    Slti,
    Sltiu,
    Xori,
    Ori,
    Andi,
    Slli,
    Srli,
    Srai,
}

/// An operation on two registers.
#[derive(Clone, Copy, Debug, PartialEq, Eq)]
pub enum RegOp {
    Add,
    Sub,
    Sll,
    Slt,
    Sltu,
    Xor,
    Srl,
    Sra,
    Or,
    And,
}

/// An operation of the extension for products and quotients.
#[derive(Clone, Copy, Debug, PartialEq, Eq)]
pub enum MulOp {
    Mul,
    Mulh,
    Mulhsu,
    Mulhu,
    Div,
    Divu,
    Rem,
    Remu,
}

/// An instruction, with its immediate sign-extended.
#[derive(Clone, Copy, Debug, PartialEq, Eq)]
pub enum Inst {
    Lui {
        rd: u8,
        imm: u32,
    },
    Auipc {
        rd: u8,
        imm: u32,
    },
    Jal {
        rd: u8,
        imm: u32,
    },
    Jalr {
        rd: u8,
        rs1: u8,
        imm: u32,
    },
    Branch {
        op: BranchOp,
        rs1: u8,
        rs2: u8,
        imm: u32,
    },
    Load {
        op: LoadOp,
        rd: u8,
        rs1: u8,
        imm: u32,
    },
    Store {
        op: StoreOp,
        rs1: u8,
        rs2: u8,
        imm: u32,
    },
    Imm {
        op: ImmOp,
        rd: u8,
        rs1: u8,
        imm: u32,
    },
    Op {
        op: RegOp,
        rd: u8,
        rs1: u8,
        rs2: u8,
    },
    Mul {
        op: MulOp,
        rd: u8,
        rs1: u8,
        rs2: u8,
    },
    Fence,
    Ecall,
    Ebreak,
}

/// How much a load or a store moves.
#[derive(Clone, Copy, Debug, PartialEq, Eq)]
pub enum Width {
    Byte,
    Half,
    Word,
}

impl Width {
    /// How many bytes the width has.
    pub fn bytes(self) -> u32
        ensures { result ≡ bytes_of self }
    {
        match self {
            Width::Byte => 1,
            Width::Half => 2,
            Width::Word => 4,
        }
    }
}

/// Whether a machine runs.
#[derive(Clone, Copy, Debug, PartialEq, Eq)]
pub enum Status {
    Running,
    Waiting,
    Halted,
}

/// Why an input is not taken.
#[derive(Clone, Copy, Debug, PartialEq, Eq)]
pub enum NotTaken {
    NotPacket,
    UnknownPeer,
    NotForUs,
    NotAuthentic,
    Repeated,
    WrongNumber,
    NotOutstanding,
    NotAsked,
    Halted,
    ClockPending,
    Full,
}

/// A row of the peers: how many messages were sent to it, which of them it has acknowledged, and how many came from it.
#[derive(Clone, Copy, Debug)]
pub struct Peer {
    pub id: u8,
    pub key: [u8; 56],
    pub sent: u64,
    pub acked: u64,
    pub received: u64,
}

/// The doorbell of a machine of version 2.
#[derive(Clone, Copy, Debug, PartialEq, Eq)]
pub struct Bell {
    /// The handler's address, a multiple of 4, or 0: nothing rings.
    pub vector: u32,
    /// Where the handler was entered from, a multiple of 4.
    pub saved: u32,
    /// 0 where the handler was left (Idle), 1 where it was entered (Inside), 2 where something came in since (Rung).
    pub state: u8,
}

/// What a store to TX_SEND sent. The payload is the first `len` bytes of the transmit window.
#[derive(Clone, Copy, Debug)]
pub struct Sent {
    pub peer: u32,
    pub number: u64,
    pub len: u32,
}

/// A SHA-256 value (FIPS 180-4).
#[derive(Clone, Copy, Debug, PartialEq, Eq)]
pub struct Digest(pub [u8; 32]);
