// One event of a list.
ghost use Rattle.std.specs.Prelude.{◌≡◌, ◌^◌, ◌<◌, ◌++◌, length, drop, IfOk};
ghost use Rattle.avm_outside.specs.Bounds.{IsEvent};
ghost use Rattle.avm_outside.specs.Feed.{due_of, bytes_of};
ghost use Rattle.avm_outside.specs.Events.{event_of};

use crate::Due;
use std::alloc::{AllocError, Global};
use std::marker::Model;

/// An event, and the count of the machine at which it is due.
#[derive(Drop)]
pub struct TimedEvent {
    at: u64,
    due: Due,
    bytes: Vec<u8>,
}

impl Model for TimedEvent {
    ghost use Rattle.std.specs.Prelude.{◌^◌, ◌<◌, length};
    ghost use Rattle.avm_outside.specs.Bounds.{IsEvent};
    ghost use Rattle.avm_outside.specs.Feed.{Timed};
    ghost use Rattle.avm_outside.specs.Events.{event_of};

    ghost Value = { Timed };

    ghost view = { λ e. record { at = e.at; event = event_of e.due e.bytes.items } };

    ghost invariant = { λ e. (e.at < 2 ^ 62) × IsEvent e.due (length e.bytes.items) };
}

impl TimedEvent {
    /// The event with a copy of the bytes.
    pub fn new(alloc: Global, at: u64, due: Due, bytes: &[u8]) -> Result<TimedEvent, AllocError>
        requires count { at < 2 ^ 62 }
        requires event { IsEvent due (length bytes.now) }
        ensures { IfOk result (λ e. e ≡ record { at = at; event = event_of due bytes.now }) }
    {
        let bytes = Vec::from_slice(alloc, bytes)?;
        Ok(TimedEvent { at, due, bytes })
    }

    /// The count at which it is due.
    pub fn at(&self) -> u64
        ensures value { result ≡ self.now.at }
        ensures bound { result < 2 ^ 62 }
    {
        self.at
    }

    /// The event as an answer names it.
    pub fn due(&self) -> Due
        ensures value { result ≡ due_of self.now.event }
        ensures bound { IsEvent result (length (bytes_of self.now.event)) }
    {
        self.due
    }

    /// Puts the event's bytes at the front of a buffer.
    pub fn put(&self, buf: &mut [u8; 24576])
        ensures { buf.new ≡ bytes_of self.now.event ++ drop (length (bytes_of self.now.event)) buf.old }
    {
        buf[..self.bytes.len()].copy_from_slice(&self.bytes);
    }
}
