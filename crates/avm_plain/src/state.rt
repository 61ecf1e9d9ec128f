//! The state of the machine, and what its steps put out.

ghost use Rattle.std.specs.Prelude.{◌≡◌, ◌≤◌, ◌<◌, All, IfOk};
ghost use Rattle.avm_model.specs.Machine.{initial, is_running as is_running_lem, loads_clock as loads_clock_lem, next_inst as next_inst_lem, asks as asks_lem, can_step as can_step_lem};

use crate::devices::Devices;
use crate::hart::{Hart, copy_hart, offset, reg};
use crate::memory::ram_load;
use crate::words::decode;
use avm_model::{Inst, LoadOp, Status, Width};
use std::alloc::{AllocError, Global};
use std::marker::Model;

/// The state of the machine: the hart, RAM from address 80000000 on, the devices, the number of steps between two
/// snapshots, which is not 0, the steps made, and whether it runs. No row counts more messages than there were steps.
#[derive(Drop)]
pub struct State {
    pub hart: Hart,
    pub ram: Vec<u8>,
    pub devices: Devices,
    pub snap: u32,
    pub count: u64,
    pub status: Status,
}

impl Model for State {
    ghost use Rattle.avm_model.specs.Machine.{State as StateOf};
    ghost use Rattle.avm_plain.specs.Peers.{IsCounted};

    ghost Value = { StateOf };

    ghost view = { λ s. record {
      hart = s.hart;
      ram = s.ram.items;
      devices = s.devices;
      snap = s.snap;
      count = s.count;
      status = s.status;
    } };

    ghost invariant = { λ s. IsCounted s.snap s.count s.devices.peers };
}

/// What a step puts out.
#[derive(Drop)]
pub enum Output {
    /// A line.
    Out(Vec<u8>),
    /// A message, with its peer and number.
    Send {
        peer: u32,
        number: u64,
        payload: Vec<u8>,
    },
    /// A halt.
    Halt {
        cause: u32,
        value: u32,
    },
    /// A snapshot.
    Snap,
}

/// The state after a step, and its outputs in order.
#[derive(Drop)]
pub struct Stepped {
    pub state: State,
    pub outs: Vec<Output>,
}

impl State {
    /// The state that runs from `pc`, with registers 0. No message was sent yet.
    pub fn initial(devices: Devices, ram: Vec<u8>, snap: u32, pc: u32) -> State
        requires snap { 0 < snap }
        requires sent { All (λ p. p.sent ≤ 0) devices.peers }
        ensures { result ≡ initial devices ram.items snap pc }
    {
        State {
            hart: Hart { x: [0; 32], pc },
            ram,
            devices,
            snap,
            count: 0,
            status: Status::Running,
        }
    }

    /// The same state.
    pub fn copy(&self, alloc: Global) -> Result<State, AllocError>
        ensures { IfOk result (λ s. s ≡ self.now) }
    {
        Ok(State {
            hart: copy_hart(&self.hart),
            ram: Vec::from_slice(alloc, self.ram.as_slice())?,
            devices: self.devices.copy(alloc)?,
            snap: self.snap,
            count: self.count,
            status: self.status,
        })
    }
}

pub fn is_running(status: Status) -> bool
    ensures { result ≡ is_running_lem status }
{
    match status {
        Status::Running => true,
        Status::Waiting | Status::Halted => false,
    }
}

/// The instruction at pc, if one stands there.
fn next_inst(state: &State) -> Option<Inst>
    ensures { result ≡ next_inst_lem state.now }
{
    decode(ram_load(state.ram.as_slice(), state.hart.pc, Width::Word)?)
}

/// The instruction is LW from CLK_LO.
fn loads_clock(hart: &Hart, inst: Option<Inst>) -> bool
    ensures { result ≡ loads_clock_lem hart.now inst }
{
    match inst {
        Some(
            Inst::Load {
                op: LoadOp::Lw,
                rs1,
                imm,
                ..
            },
        ) => offset(reg(hart, rs1), imm) == 0x1000_0008,
        _ => false,
    }
}

/// The machine asks for a clock: it runs, and its next instruction is LW from CLK_LO.
pub fn asks(state: &State) -> bool
    ensures { result ≡ asks_lem state.now }
{
    is_running(state.status) && loads_clock(&state.hart, next_inst(state))
}

/// The machine runs, and either does not ask or has a pending clock.
pub fn can_step(state: &State) -> bool
    ensures { result ≡ can_step_lem state.now }
{
    is_running(state.status) && (!asks(state) || state.devices.clock.is_some())
}
