//! The machine: its parts, and what they are between two steps.

ghost use Rattle.std.specs.Prelude.{◌≡◌, true, false, None};
ghost use Rattle.std.specs.Borrow.{sem};
ghost use Rattle.avm_model.specs.Bounds.{is_head};
ghost use Rattle.avm_model.specs.DeviceBounds.{IsDevices};
ghost use Rattle.avm_model.specs.HeadState.{data_of};
ghost use Rattle.avm_model.specs.Machine.{initial, asks, can_step};
ghost use Rattle.avm_model.specs.Memory.{IsRam};
ghost use Rattle.guest_machine.specs.LentRam.{LendsRam};
ghost use Rattle.guest_machine.specs.Machine.{state_from};

use crate::asking::loads_clock;
use crate::board::Board;
use crate::snap::next_snap;
use avm_model::Status;
use guest_dev::Devices;
use inst_cache::no_slots;
use rv32_core::Hart;
use rv32_mem::Ram;
use std::marker::Model;

/// A hart, RAM and devices, seen as the state of the machine and the marks of the pages of its RAM.
#[derive(Drop)]
pub struct Machine {
    pub(crate) hart: Hart,
    pub(crate) board: Board,
    pub(crate) snap: u32,
    pub(crate) count: u64,
    pub(crate) next_snap: u64,
    pub(crate) status: Status,
}

impl Model for Machine {
    ghost use Rattle.avm_model.specs.Machine.{MachineState};

    ghost Value = { MachineState };

    ghost use Rattle.guest_machine.specs.Machine.{machine_of, IsMachine};

    ghost view = { machine_of };

    ghost invariant = { IsMachine };
}

impl Machine {
    /// The machine of these parts, with registers 0 and count 0, which runs from `pc` on. The parts are within the bounds
    /// of a head (docs/FORMATS.md, Head), no clock is pending, and no return from the handler is asked for.
    pub fn new(devices: Devices, ram: Ram, snap: u32, pc: u32) -> Machine
        requires bounds { is_head (data_of (initial devices.state ram.bytes snap pc)) ≡ true }
        requires clock { devices.state.clock ≡ None }
        requires returns { devices.returns ≡ false }
        ensures { result ≡ record { state = initial devices.state ram.bytes snap pc; dirty = ram.dirty } }
    {
        let hart = Hart { x: [0; 32], pc };
        Machine::resume(devices, ram, snap, hart, 0, Status::Running)
    }

    /// The machine of these parts, which are within the bounds of a head (docs/FORMATS.md, Head); no clock is pending, and
    /// no return from the handler is asked for.
    pub fn resume(
        devices: Devices,
        ram: Ram,
        snap: u32,
        hart: Hart,
        count: u64,
        status: Status,
    ) -> Machine
        requires bounds { is_head (data_of (state_from hart ram.bytes devices.state snap count status)) ≡ true }
        requires clock { devices.state.clock ≡ None }
        requires returns { devices.returns ≡ false }
        ensures { result ≡ record { state = state_from hart ram.bytes devices.state snap count status; dirty = ram.dirty } }
    {
        let board = Board {
            ram,
            devices,
            sent: None,
            waits: false,
            touched: true,
            slots: no_slots(),
        };
        let next_snap = next_snap(snap, count);
        Machine {
            hart,
            board,
            snap,
            count,
            next_snap,
            status,
        }
    }

    /// Tells the bounds that every machine is in: those of a head.
    pub fn bounds(&self)
        ensures head { is_head (data_of self.now.state) ≡ true }
        ensures ram { IsRam self.now.state.ram self.now.dirty }
        ensures devices { IsDevices self.now.state.devices }
    {
        self.board.bounds();
        let _ = self.hart.pc();
        let _ = &self.count;
    }

    /// The registers and pc.
    pub fn hart(&self) -> &Hart
        ensures { result.now ≡ self.now.state.hart }
    {
        &self.hart
    }

    /// The RAM.
    pub fn ram(&self) -> &Ram
        ensures { result.now ≡ record { bytes = self.now.state.ram; dirty = self.now.dirty } }
    {
        self.board.ram()
    }

    /// Lends the RAM; the machine is then the one with what the RAM becomes.
    pub fn ram_mut(&mut self) -> &mut Ram
        ensures* lends { sem 𝓛 (LendsRam self.entry result) }
        ensures value { result.now ≡ record { bytes = self.old.state.ram; dirty = self.old.dirty } }
    {
        self.board.ram_mut()
    }

    /// The devices.
    pub fn devices(&self) -> &Devices
        ensures { result.now ≡ record { state = self.now.state.devices; returns = false } }
    {
        self.board.devices()
    }

    /// K: a snapshot comes at each count that is a multiple of it.
    pub fn snap(&self) -> u32
        ensures { result ≡ self.now.state.snap }
    {
        self.snap
    }

    /// How many steps were made.
    pub fn count(&self) -> u64
        ensures { result ≡ self.now.state.count }
    {
        self.count
    }

    /// Whether the machine runs, waits or has halted.
    pub fn status(&self) -> Status
        ensures { result ≡ self.now.state.status }
    {
        self.status
    }

    /// Whether the machine asks for a clock: it runs, and its next instruction is LW from CLK_LO.
    pub fn asks(&self) -> bool
        ensures { result ≡ asks self.now.state }
    {
        self.status == Status::Running && loads_clock(&self.hart, self.board.ram())
    }

    /// Whether the machine can make a step: it runs, and either doesn't ask or has a pending clock.
    pub fn can_step(&self) -> bool
        ensures { result ≡ can_step self.now.state }
    {
        self.status == Status::Running && (!self.asks() || self.board.pending())
    }
}
