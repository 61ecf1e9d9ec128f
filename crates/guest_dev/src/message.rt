//! A message in a buffer of its own.

ghost use Rattle.std.specs.Prelude.{◌≡◌, ◌≤◌, ◌++◌, length, take, drop, [], IfOk};

use std::alloc::{AllocError, Global};
use std::marker::Model;

/// The longest payload.
const LONGEST: usize = 1024;

/// A message in a buffer for the longest payload, seen as its peer and payload.
#[derive(Drop)]
pub struct Message {
    peer: u8,
    len: usize,
    bytes: Vec<u8>,
}

impl Model for Message {
    ghost use Rattle.std.specs.Prelude.{◌≡◌, ◌≤◌, length, take};
    ghost use Rattle.avm_model.specs.Device.{MessageState};

    ghost Value = { MessageState };

    ghost view = { λ m. record { peer = m.peer; payload = take m.len m.bytes.items } };

    ghost invariant = { λ m. (m.len ≤ 1024) × (length m.bytes.items ≡ 1024) };
}

impl Message {
    /// The buffer, with no payload in it.
    pub fn blank(alloc: Global) -> Result<Message, AllocError>
        ensures { IfOk result (λ m. m ≡ record { peer = 0; payload = [] }) }
    {
        let bytes = vec![in alloc; 0u8; LONGEST]?;
        Ok(Message {
            peer: 0,
            len: 0,
            bytes,
        })
    }

    /// Puts a message in place of the one before.
    pub fn put(&mut self, peer: u8, payload: &[u8])
        requires { length payload.now ≤ 1024 }
        ensures { self.new ≡ record { peer = peer; payload = payload.now } }
    {
        fill(self.bytes.as_mut_slice(), payload);
        self.len = payload.len();
        self.peer = peer;
    }

    /// The peer that sent it.
    pub fn peer(&self) -> u8
        ensures { result ≡ self.now.peer }
    {
        self.peer
    }

    /// What it says.
    pub fn payload(&self) -> &[u8]
        ensures value { result.now ≡ self.now.payload }
        ensures bound { length self.now.payload ≤ 1024 }
    {
        &self.bytes[..self.len]
    }
}

/// Puts bytes at the front.
fn fill(bytes: &mut [u8], front: &[u8])
    requires { length front.now ≤ length bytes.old }
    ensures value { bytes.new ≡ front.now ++ drop (length front.now) bytes.old }
    ensures len { length bytes.new ≡ length bytes.old }
{
    bytes[..front.len()].copy_from_slice(front);
}
