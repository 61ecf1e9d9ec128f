//! The devices: what they hold.

ghost use Rattle.std.specs.Prelude.{◌≡◌, replicate, IfOk};
ghost use Rattle.avm_model.specs.Bell.{bell_of as bell_of_lem};
ghost use Rattle.avm_model.specs.Device.{fresh_with};

use crate::bells::bell_of;
use avm_model::{Bell, Peer};
use std::alloc::{AllocError, Global};
use std::marker::Model;

/// A message that came in, of at most 1024 bytes, with the peer that sent it.
#[derive(Drop)]
pub struct Message {
    pub peer: u32,
    pub payload: Vec<u8>,
}

impl Model for Message {
    ghost use Rattle.std.specs.Prelude.{◌≤◌, length};
    ghost use Rattle.avm_model.specs.Device.{MessageState};

    ghost Value = { MessageState };

    ghost view = { λ m. record { peer = m.peer; payload = m.payload.items } };

    ghost invariant = { λ m. length m.payload.items ≤ 1024 };
}

/// The devices, seen as what each register and queue holds; the queues have their oldest item first.
#[derive(Drop)]
pub struct Devices {
    pub own: u8,
    pub peers: Vec<Peer>,
    pub line: Vec<u8>,
    pub console: Vec<u8>,
    pub messages: Vec<Message>,
    pub latch: u32,
    pub clock: Option<u64>,
    pub tx_peer: u32,
    pub tx_len: u32,
    pub tx_result: u32,
    pub window: Vec<u8>,
    /// The doorbell of version 2.
    pub bell: Option<Bell>,
}

impl Model for Devices {
    ghost use Rattle.avm_model.specs.Device.{DeviceState};

    ghost Value = { DeviceState };

    ghost view = { λ d. record {
      own = d.own;
      peers = d.peers.items;
      line = d.line.items;
      console = d.console.items;
      messages = d.messages.items;
      latch = d.latch;
      clock = d.clock;
      tx_peer = d.tx_peer;
      tx_len = d.tx_len;
      tx_result = d.tx_result;
      window = d.window.items;
      bell = d.bell;
    } };
}

impl Message {
    /// The same message.
    pub fn copy(&self, alloc: Global) -> Result<Message, AllocError>
        ensures { IfOk result (λ m. m ≡ self.now) }
    {
        Ok(Message {
            peer: self.peer,
            payload: Vec::from_slice(alloc, self.payload.as_slice())?,
        })
    }
}

fn zeros(alloc: Global, n: usize) -> Result<Vec<u8>, AllocError>
    ensures { IfOk result (λ v. v.items ≡ replicate n 0) }
{
    vec![in alloc; 0u8; n]
}

fn copy_messages(alloc: Global, messages: &[Message]) -> Result<Vec<Message>, AllocError>
    ensures { IfOk result (λ v. v.items ≡ messages.now) }
{
    let mut copies = Vec::new(alloc);
    for message in messages {
        copies.push(message.copy(alloc)?)?;
    }
    Ok(copies)
}

impl Devices {
    /// Devices that hold nothing, with an idle bell in version 2.
    pub fn fresh(
        alloc: Global,
        version: u8,
        own: u8,
        peers: Vec<Peer>,
    ) -> Result<Devices, AllocError>
        ensures { IfOk result (λ d. d ≡ fresh_with (bell_of_lem version) own peers.items) }
    {
        Ok(Devices {
            own,
            peers,
            line: Vec::new(alloc),
            console: Vec::new(alloc),
            messages: Vec::new(alloc),
            latch: 0,
            clock: None,
            tx_peer: 0,
            tx_len: 0,
            tx_result: 0,
            window: zeros(alloc, 1024)?,
            bell: bell_of(version),
        })
    }

    /// The same devices.
    pub fn copy(&self, alloc: Global) -> Result<Devices, AllocError>
        ensures { IfOk result (λ d. d ≡ self.now) }
    {
        Ok(Devices {
            own: self.own,
            peers: Vec::from_slice(alloc, self.peers.as_slice())?,
            line: Vec::from_slice(alloc, self.line.as_slice())?,
            console: Vec::from_slice(alloc, self.console.as_slice())?,
            messages: copy_messages(alloc, self.messages.as_slice())?,
            latch: self.latch,
            clock: self.clock,
            tx_peer: self.tx_peer,
            tx_len: self.tx_len,
            tx_result: self.tx_result,
            window: Vec::from_slice(alloc, self.window.as_slice())?,
            bell: self.bell,
        })
    }
}
