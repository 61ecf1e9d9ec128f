//! The queue of messages.

ghost use Rattle.std.specs.Prelude.{◌≡◌, ◌≤◌, ◌<◌, ◌+◌, ◌==◌, ◌++◌, ◌∷◌, [], length, drop, slice_get, Option, Some, None, IfOk, MatchOption};
ghost use Rattle.std.specs.Option.{option_copied};

use crate::message::Message;
use circular_buffer::HeapCircularBuffer;
use std::alloc::{AllocError, Global};
use std::marker::Model;

/// How many messages wait at most.
const PLACES: usize = 8;

/// The messages that wait, oldest first, seen as their list. Each has one of eight buffers, which stand in a ring: the free
/// ones first, then those of the messages in their order. So taking a message fills the first buffer and puts it last, and
/// dropping the oldest moves nothing.
#[derive(Drop)]
pub struct Queue {
    ring: HeapCircularBuffer<Message, Global>,
    free: usize,
}

impl Model for Queue {
    ghost use Rattle.std.specs.Prelude.{◌≡◌, ◌≤◌, List, length, drop};
    ghost use Rattle.avm_model.specs.Device.{MessageState};

    ghost Value = { List MessageState };

    ghost view = { λ q. drop q.free q.ring.items };

    ghost invariant = { λ q. (q.ring.capacity ≡ 8) × (length q.ring.items ≡ 8) × (q.free ≤ 8) };
}

impl Queue {
    /// No message, and all buffers.
    pub fn new(alloc: Global) -> Result<Queue, AllocError>
        ensures { IfOk result (λ q. q ≡ []) }
    {
        let mut ring = HeapCircularBuffer::with_capacity(alloc, PLACES)?;
        for _ in 0..PLACES {
            let _ = ring.push_back(Message::blank(alloc)?);
        }
        Ok(Queue { ring, free: PLACES })
    }

    /// How many messages wait.
    pub fn len(&self) -> usize
        ensures value { result ≡ length self.now }
        ensures bound { result ≤ 8 }
    {
        PLACES - self.free
    }

    /// Whether none waits.
    pub fn is_empty(&self) -> bool
        ensures { result ≡ (length self.now == 0) }
    {
        self.len() == 0
    }

    /// Message `i`, from the oldest on.
    pub fn get(&self, i: u32) -> Option<&Message>
        ensures { option_copied result ≡ slice_get self.now i }
    {
        self.ring.get(self.free + i as usize)
    }

    /// Adds a message behind the others.
    pub fn push(&mut self, peer: u8, payload: &[u8])
        requires room { length self.old < 8 }
        requires short { length payload.now ≤ 1024 }
        ensures { self.new ≡ self.old ++ record { peer = peer; payload = payload.now } ∷ [] }
    {
        if let Some(mut message) = self.ring.pop_front() {
            message.put(peer, payload);
            let _ = self.ring.push_back(message);
            self.free -= 1;
        }
    }

    /// Drops the oldest message, if any waits.
    pub fn pop(&mut self)
        ensures { self.new ≡ drop 1 self.old }
    {
        if self.free < PLACES {
            self.free += 1;
        }
    }
}
