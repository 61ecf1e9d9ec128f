//! The devices: what they hold, and what the machine and a head put in and take out.

ghost use Rattle.std.specs.Prelude.{◌≡◌, ◌≤◌, ◌<◌, ◌+◌, ◌-◌, ◌^◌, length, take, IsTrue, IsNone, Some, Option, nat_le, nat_lt, false, IfSome, IfOk, MatchOption, is_some, IsSome, slice_get, ◌++◌, ◌∷◌, []};
ghost use Rattle.std.specs.Bool.{OnTrue, OnFalse};
ghost use Rattle.avm_model.specs.Bounds.{are_rows, none_past};
ghost use Rattle.avm_model.specs.Bell.{new_bell, is_bell};
ghost use Rattle.avm_model.specs.Device.{row_of, with_row, idle, fresh, fresh_with};
ghost use Rattle.avm_model.specs.DeviceBounds.{IsDevices};
ghost use Rattle.avm_model.specs.Input.{receives_one, acknowledges};
ghost use Rattle.guest_dev.specs.Shown.{regs_of, with_regs};

use crate::queue::Queue;
use crate::rows;
use avm_model::{Bell, Peer};
use avm_num::NoMemory;
use circular_buffer::HeapCircularBuffer;
use std::alloc::Global;
use std::marker::Model;

/// How many bytes the console queue holds at most.
const CONSOLE: usize = 1024;

/// The bell at boot.
pub(crate) const NEW_BELL: Bell = Bell {
    vector: 0,
    saved: 0,
    state: 0,
};

/// The registers that a head holds.
#[derive(Clone, Copy, Debug, PartialEq, Eq)]
pub struct Regs {
    /// What CLK_HI gives.
    pub latch: u32,
    /// TX_PEER.
    pub peer: u32,
    /// TX_LEN.
    pub len: u32,
    /// TX_RES.
    pub result: u32,
}

/// The devices, seen as what each register and queue holds, and whether a return from the handler is asked for.
#[derive(Drop)]
pub struct Devices {
    pub(crate) own: u8,
    pub(crate) peers: Vec<Peer>,
    pub(crate) line: [u8; 128],
    pub(crate) line_len: usize,
    pub(crate) console: HeapCircularBuffer<u8, Global>,
    pub(crate) messages: Queue,
    pub(crate) latch: u32,
    pub(crate) clock: Option<u64>,
    pub(crate) tx_peer: u32,
    pub(crate) tx_len: u32,
    pub(crate) tx_result: u32,
    pub(crate) window: [u8; 1024],
    pub(crate) bell: Option<Bell>,
    pub(crate) returns: bool,
}

impl Model for Devices {
    ghost use Rattle.std.specs.Prelude.{take};
    ghost use Rattle.guest_dev.specs.Shown.{DevicesState};
    ghost use Rattle.guest_dev.specs.Kept.{IsKept};

    ghost Value = { DevicesState };

    ghost view = { λ d. record {
      state = record {
        own = d.own;
        peers = d.peers.items;
        line = take d.line_len d.line;
        console = d.console.items;
        messages = d.messages;
        latch = d.latch;
        clock = d.clock;
        tx_peer = d.tx_peer;
        tx_len = d.tx_len;
        tx_result = d.tx_result;
        window = d.window;
        bell = d.bell;
      };
      returns = d.returns;
    } };

    ghost invariant = { λ d. IsKept d.line_len d.console d.messages d.tx_result d.own d.peers.items d.bell d.returns };
}

impl Devices {
    /// Devices of version 1 that hold nothing. The rows stand in ascending id.
    pub fn new(alloc: Global, own: u8, peers: Vec<Peer>) -> Result<Devices, NoMemory>
        requires self_id { own < 16 }
        requires rows { IsTrue (are_rows own 0 peers.items) }
        requires sent { IsTrue (none_past (2 ^ 62 - 1) peers.items) }
        ensures { IfOk result (λ d. d ≡ record { state = fresh own peers.items; returns = false }) }
    {
        Devices::with(alloc, own, peers, None)
    }

    /// Devices of version 2 that hold nothing, with an idle bell. The rows stand in ascending id.
    pub fn with_bell(alloc: Global, own: u8, peers: Vec<Peer>) -> Result<Devices, NoMemory>
        requires self_id { own < 16 }
        requires rows { IsTrue (are_rows own 0 peers.items) }
        requires sent { IsTrue (none_past (2 ^ 62 - 1) peers.items) }
        ensures { IfOk result (λ d. d ≡ record { state = fresh_with (Some new_bell) own peers.items; returns = false }) }
    {
        Devices::with(alloc, own, peers, Some(NEW_BELL))
    }

    fn with(
        alloc: Global,
        own: u8,
        peers: Vec<Peer>,
        bell: Option<Bell>,
    ) -> Result<Devices, NoMemory>
        requires self_id { own < 16 }
        requires rows { IsTrue (are_rows own 0 peers.items) }
        requires sent { IsTrue (none_past (2 ^ 62 - 1) peers.items) }
        requires bell { IsTrue (is_bell bell) }
        ensures { IfOk result (λ d. d ≡ record { state = fresh_with bell own peers.items; returns = false }) }
    {
        let Ok(console) = HeapCircularBuffer::with_capacity(alloc, CONSOLE) else {
            return Err(NoMemory);
        };
        let Ok(messages) = Queue::new(alloc) else {
            return Err(NoMemory);
        };
        Ok(Devices {
            own,
            peers,
            line: [0; 128],
            line_len: 0,
            console,
            messages,
            latch: 0,
            clock: None,
            tx_peer: 0,
            tx_len: 0,
            tx_result: 0,
            window: [0; 1024],
            bell,
            returns: false,
        })
    }

    /// Tells the bounds that all devices keep.
    pub fn bounds(&self)
        ensures { IsDevices self.now.state }
    {
        let _ = &self.own;
        let _ = self.line();
    }

    /// The own id.
    pub fn own(&self) -> u8
        ensures { result ≡ self.now.state.own }
    {
        self.own
    }

    /// The rows of the peers, in ascending id.
    pub fn peers(&self) -> &[Peer]
        ensures { result.now ≡ self.now.state.peers }
    {
        self.peers.as_slice()
    }

    /// The row of a peer, if it has one.
    pub fn row(&self, id: u32) -> Option<Peer>
        ensures { result ≡ row_of self.now.state.peers id }
    {
        rows::row(self.peers.as_slice(), id)
    }

    /// The line buffer.
    pub fn line(&self) -> &[u8]
        ensures value { result.now ≡ self.now.state.line }
        ensures bound { length self.now.state.line ≤ 128 }
    {
        &self.line[..self.line_len]
    }

    /// The line buffer, at the front of an array, and its length; the buffer is empty after it.
    pub fn take_line(&mut self) -> ([u8; 128], u8)
        ensures value { take result.1 result.0 ≡ self.old.state.line }
        ensures len { result.1 ≡ length self.old.state.line }
        ensures bound { result.1 ≤ 128 }
        ensures after { self.new ≡ record self.old { state = record self.old.state { line = [] } } }
    {
        let len = self.line_len as u8;
        self.line_len = 0;
        (self.line, len)
    }

    /// Puts the line buffer.
    pub fn set_line(&mut self, bytes: &[u8])
        requires { length bytes.now ≤ 128 }
        ensures { self.new ≡ record self.old { state = record self.old.state { line = bytes.now } } }
    {
        self.line[..bytes.len()].copy_from_slice(bytes);
        self.line_len = bytes.len();
    }

    /// The transmit window.
    pub fn window(&self) -> &[u8; 1024]
        ensures { result.now ≡ self.now.state.window }
    {
        &self.window
    }

    /// Puts the transmit window.
    pub fn set_window(&mut self, bytes: &[u8; 1024])
        ensures { self.new ≡ record self.old { state = record self.old.state { window = bytes.now } } }
    {
        self.window = *bytes;
    }

    /// The registers that a head holds.
    pub fn regs(&self) -> Regs
        ensures value { result ≡ regs_of self.now.state }
        ensures bound { result.result ≤ 3 }
    {
        Regs {
            latch: self.latch,
            peer: self.tx_peer,
            len: self.tx_len,
            result: self.tx_result,
        }
    }

    /// Puts the registers that a head holds.
    pub fn set_regs(&mut self, regs: Regs)
        requires { regs.result ≤ 3 }
        ensures { self.new ≡ record self.old { state = with_regs self.old.state regs } }
    {
        self.latch = regs.latch;
        self.tx_peer = regs.peer;
        self.tx_len = regs.len;
        self.tx_result = regs.result;
    }

    /// Whether a clock is pending.
    pub fn pending(&self) -> bool
        ensures { result ≡ is_some self.now.state.clock }
    {
        self.clock.is_some()
    }

    /// Makes a clock pending.
    pub fn put_clock(&mut self, value: u64)
        requires { IsNone self.old.state.clock }
        ensures { self.new ≡ record self.old { state = record self.old.state { clock = Some value } } }
    {
        self.clock = Some(value);
    }

    /// Whether both queues are empty.
    pub fn is_idle(&self) -> bool
        ensures { result ≡ idle self.now.state }
    {
        self.console.is_empty() && self.messages.is_empty()
    }

    /// Byte `i` of the console queue, from the oldest on.
    pub fn console(&self, i: u32) -> Option<u8>
        ensures { result ≡ slice_get self.now.state.console i }
    {
        self.console.get(i as usize).copied()
    }

    /// Adds bytes to the console queue; false exactly where it would hold more than 1024, and then nothing changes.
    pub fn take_console(&mut self, bytes: &[u8]) -> bool
        ensures answer { result ≡ nat_le (length self.old.state.console + length bytes.now) 1024 }
        ensures yes { OnTrue result (self.new ≡ record self.old { state = record self.old.state { console = self.old.state.console ++ bytes.now } }) }
        ensures no { OnFalse result (self.new ≡ self.old) }
    {
        if self.console.len() + bytes.len() > CONSOLE {
            return false;
        }
        self.console.fill_from_slice(bytes);
        true
    }

    /// Message `i`, its peer and its payload, from the oldest on.
    pub fn message(&self, i: u32) -> Option<(u8, &[u8])>
        ensures { MatchOption result (IsNone (slice_get self.now.state.messages i)) (λ m. slice_get self.now.state.messages i ≡ Some (record { peer = m.0; payload = m.1.now })) }
    {
        let message = self.messages.get(i)?;
        Some((message.peer(), message.payload()))
    }

    /// Adds a message of a known peer; false exactly where eight wait, and then nothing changes.
    pub fn take_message(&mut self, peer: u8, payload: &[u8]) -> bool
        requires short { length payload.now ≤ 1024 }
        requires known { IsSome (row_of self.old.state.peers peer) }
        ensures answer { result ≡ nat_lt (length self.old.state.messages) 8 }
        ensures yes { OnTrue result (self.new ≡ record self.old { state = record self.old.state { messages = self.old.state.messages ++ record { peer = peer; payload = payload.now } ∷ [] } }) }
        ensures no { OnFalse result (self.new ≡ self.old) }
    {
        if self.messages.len() >= 8 {
            return false;
        }
        self.messages.push(peer, payload);
        true
    }

    /// Counts a message from a peer.
    pub fn count_message(&mut self, peer: u8)
        requires { IfSome (row_of self.old.state.peers peer) (λ p. p.received < 2 ^ 62 - 1) }
        ensures { self.new ≡ record self.old { state = record self.old.state { peers = with_row self.old.state.peers peer receives_one } } }
    {
        rows::count_received(self.peers.as_mut_slice(), peer as u32);
    }

    /// Counts the last message to a peer as acknowledged.
    pub fn count_ack(&mut self, peer: u8)
        ensures { self.new ≡ record self.old { state = record self.old.state { peers = with_row self.old.state.peers peer acknowledges } } }
    {
        rows::count_acked(self.peers.as_mut_slice(), peer as u32);
    }
}
