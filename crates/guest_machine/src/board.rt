//! RAM and devices as the bus of an instruction.

ghost use Rattle.std.specs.Prelude.{◌≡◌, ◌+◌, ◌-◌, ◌^◌, ◌++◌, ◌∷◌, [], nat_le, nat_lt, ◌%◌, ◌<◌, ◌≤◌, ◌==◌, not, false, length, is_some, IsNone, IsSome, IfSome, None, Some};
ghost use Rattle.std.specs.Bool.{OnTrue, OnFalse};
ghost use Rattle.std.specs.Borrow.{sem};
ghost use Rattle.avm_model.specs.Device.{row_of, with_row};
ghost use Rattle.avm_model.specs.DeviceBounds.{IsDevices};
ghost use Rattle.avm_model.specs.Exec.{state_after, stored_state};
ghost use Rattle.avm_model.specs.Input.{receives_one, acknowledges};
ghost use Rattle.avm_model.specs.Machine.{load_beyond, store_beyond, board_fetch, board_load, board_store, paged, out_line, is_complete, came_back};
ghost use Rattle.avm_model.specs.Memory.{IsRam};
ghost use Rattle.avm_model.specs.Bell.{after_ring, pc_after_ring};
ghost use Rattle.guest_dev.specs.Shown.{IsSent};
ghost use Rattle.rv32_core.specs.Bus.{got};
ghost use Rattle.guest_machine.specs.Board.{CanStore, finished};
ghost use Rattle.guest_machine.specs.Lent.{BoardLendsRam};
ghost use Rattle.guest_machine.specs.Outs.{line_list};

use crate::line::{come_back, complete_line, take_line};
use crate::outs::Line;
use avm_model::{Peer, Sent, Width};
use guest_dev::{DevGot, Devices};
use inst_cache::{Slot, no_slots};
use rv32_core::{Bus, Got, Hart};
use rv32_decode::Inst;
use rv32_mem::Ram;
use std::marker::Model;

/// RAM and devices, and what the step at hand has sent and whether it waits.
#[derive(Drop)]
pub struct Board {
    pub ram: Ram,
    pub devices: Devices,
    pub sent: Option<Sent>,
    pub waits: bool,
    /// False only where the step at hand has nothing to tell: no line is complete, nothing is sent, nobody waits and no
    /// return is asked for.
    pub touched: bool,
    /// Instructions of the RAM, as they were decoded.
    pub slots: [Slot; 1024],
}

impl Model for Board {
    ghost use Rattle.avm_model.specs.Memory.{RamState};
    ghost use Rattle.avm_model.specs.Machine.{BoardOf};
    ghost use Rattle.guest_machine.specs.Fields.{IsBoard};

    ghost Value = { BoardOf RamState };

    ghost view = { λ b. record { ram = b.ram; devices = b.devices.state; send = b.sent; waits = b.waits; returns = b.devices.returns } };

    ghost invariant = { IsBoard };
}

// The parts.
impl Board {
    pub fn ram(&self) -> &Ram
        ensures { result.now ≡ self.now.ram }
    {
        &self.ram
    }

    pub fn ram_mut(&mut self) -> &mut Ram
        ensures* lends { sem 𝓛 (BoardLendsRam self.entry result) }
        ensures value { result.now ≡ self.old.ram }
    {
        // Empty slots are right beside any bytes, so also beside what the RAM becomes.
        self.slots = no_slots();
        &mut self.ram
    }

    pub fn devices(&self) -> &Devices
        ensures { result.now ≡ record { state = self.now.devices; returns = self.now.returns } }
    {
        &self.devices
    }

    /// Tells what RAM and devices keep.
    pub fn bounds(&self)
        ensures ram { IsRam self.now.ram.bytes self.now.ram.dirty }
        ensures devices { IsDevices self.now.devices }
    {
        self.devices.bounds();
        let _ = self.ram.pages();
    }
}

// The bus.
impl Board {
    fn load_word(&mut self, addr: u32) -> Got
        ensures value { result ≡ got (load_beyond self.old addr Width.Word) }
        ensures after { self.new ≡ state_after self.old (load_beyond self.old addr Width.Word) }
    {
        self.touched = true;
        match self.devices.read(addr) {
            DevGot::Value(value) => Got::Value(value),
            DevGot::Asks => Got::Asks,
            DevGot::Nothing => Got::Unmapped,
        }
    }

    fn store_word(&mut self, addr: u32, value: u32) -> bool
        requires { CanStore self.old }
        ensures answer { result ≡ is_some (store_beyond self.old addr Width.Word value) }
        ensures after { self.new ≡ stored_state self.old (store_beyond self.old addr Width.Word value) }
    {
        self.touched = true;
        let sent = if addr == 0x1000_0028 {
            self.devices.sending()
        } else {
            None
        };
        let waits = addr == 0x1000_0010 && self.devices.is_idle();
        if !self.devices.write(addr, value) {
            return false;
        }
        self.waits = waits;
        self.sent = sent;
        true
    }
}

impl Bus for Board {
    ghost fetched = { board_fetch paged };

    ghost loaded = { board_load paged };

    ghost stored = { board_store paged };

    ghost can_store = { CanStore };

    fn fetch(&mut self, addr: u32) -> Option<u32> {
        self.ram.fetch(addr)
    }

    #[tactic(auto, unfolding(inst_cache::specs::Kept::inst_at))]
    fn fetch_inst(&mut self, addr: u32) -> Option<Inst> {
        inst_cache::fetch(&mut self.slots, &self.ram, addr)
    }

    fn load(&mut self, addr: u32, width: Width) -> Got {
        if let Some(value) = self.ram.load(addr, width.bytes()) {
            return Got::Value(value);
        }
        match width {
            Width::Word => self.load_word(addr),
            _ => Got::Unmapped,
        }
    }

    fn store(&mut self, addr: u32, width: Width, value: u32) -> bool {
        if inst_cache::store(&mut self.slots, &mut self.ram, addr, width.bytes(), value) {
            return true;
        }
        match width {
            Width::Word => self.store_word(addr, value),
            _ => false,
        }
    }
}

// The end of a step.
impl Board {
    /// Whether the step at hand has nothing to tell.
    pub fn is_quiet(&self) -> bool
        ensures sent { OnTrue result (self.now.send ≡ None) }
        ensures waits { OnTrue result (self.now.waits ≡ false) }
        ensures returns { OnTrue result (self.now.returns ≡ false) }
        ensures line { OnTrue result (is_complete self.now.devices.line ≡ false) }
    {
        !self.touched
    }

    /// Ends a step: returns from the handler where that was asked for, takes the line out where it is complete, and tells
    /// what was sent and whether the guest waits.
    pub fn finish(&mut self, hart: &mut Hart, line: &mut Line) -> (Option<Sent>, bool)
        requires none { line.old.len ≡ 0 }
        ensures hart { hart.new ≡ came_back self.old.returns self.old.devices hart.old }
        ensures line { line_list line.new ≡ out_line (is_complete self.old.devices.line) self.old.devices.line }
        ensures short { line.new.len ≤ 128 }
        ensures sent { result.0 ≡ self.old.send }
        ensures fits { IfSome result.0 IsSent }
        ensures waits { result.1 ≡ self.old.waits }
        ensures after { self.new ≡ finished self.old (is_complete self.old.devices.line) }
    {
        come_back(hart, &mut self.devices);
        complete_line(&mut self.devices, line);
        let (sent, waits) = (self.sent, self.waits);
        self.sent = None;
        self.waits = false;
        self.touched = false;
        (sent, waits)
    }

    /// Ends a halting step: the line, unless it is empty.
    pub fn halt(&mut self) -> Line
        requires { self.old.returns ≡ false }
        ensures line { line_list result ≡ out_line (not (length self.old.devices.line == 0)) self.old.devices.line }
        ensures short { result.len ≤ 128 }
        ensures after { self.new ≡ finished self.old (not (length self.old.devices.line == 0)) }
    {
        self.touched = true;
        let line = take_line(&mut self.devices);
        self.sent = None;
        self.waits = false;
        line
    }
}

// What comes in.
impl Board {
    /// The row of a peer.
    pub fn row(&self, id: u32) -> Option<Peer>
        ensures { result ≡ row_of self.now.devices.peers id }
    {
        self.devices.row(id)
    }

    /// Whether a clock is pending.
    pub fn pending(&self) -> bool
        ensures { result ≡ is_some self.now.devices.clock }
    {
        self.devices.pending()
    }

    /// Makes a clock pending.
    pub fn put_clock(&mut self, value: u64)
        requires { IsNone self.old.devices.clock }
        ensures { self.new ≡ record self.old { devices = record self.old.devices { clock = Some value } } }
    {
        self.touched = true;
        self.devices.put_clock(value);
    }

    /// Adds bytes to the console queue, where they fit.
    pub fn take_console(&mut self, bytes: &[u8]) -> bool
        ensures answer { result ≡ nat_le (length self.old.devices.console + length bytes.now) 1024 }
        ensures yes { OnTrue result (self.new ≡ record self.old { devices = record self.old.devices { console = self.old.devices.console ++ bytes.now } }) }
        ensures no { OnFalse result (self.new ≡ self.old) }
    {
        self.touched = true;
        self.devices.take_console(bytes)
    }

    /// Adds a message of a peer and counts it, where there is room.
    pub fn take_message(&mut self, peer: u8, payload: &[u8]) -> bool
        requires short { length payload.now ≤ 1024 }
        requires known { IsSome (row_of self.old.devices.peers peer) }
        requires number { IfSome (row_of self.old.devices.peers peer) (λ p. p.received < 2 ^ 62 - 1) }
        ensures answer { result ≡ nat_lt (length self.old.devices.messages) 8 }
        ensures yes { OnTrue result (self.new ≡ record self.old { devices = record self.old.devices { messages = self.old.devices.messages ++ record { peer = peer; payload = payload.now } ∷ []; peers = with_row self.old.devices.peers peer receives_one } }) }
        ensures no { OnFalse result (self.new ≡ self.old) }
    {
        self.touched = true;
        if !self.devices.take_message(peer, payload) {
            return false;
        }
        self.devices.count_message(peer);
        true
    }

    /// Counts the last message to a peer as acknowledged.
    pub fn count_ack(&mut self, peer: u8)
        ensures { self.new ≡ record self.old { devices = record self.old.devices { peers = with_row self.old.devices.peers peer acknowledges } } }
    {
        self.touched = true;
        self.devices.count_ack(peer);
    }

    /// Rings the bell of a machine that stands at `pc`, and gives the next pc.
    pub fn ring(&mut self, pc: u32) -> u32
        requires { pc % 4 ≡ 0 }
        ensures pc { result ≡ pc_after_ring self.old.devices.bell pc }
        ensures aligned { result % 4 ≡ 0 }
        ensures after { self.new ≡ record self.old { devices = record self.old.devices { bell = after_ring self.old.devices.bell pc } } }
    {
        self.touched = true;
        self.devices.ring(pc)
    }
}
