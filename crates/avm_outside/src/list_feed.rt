// A feed in memory.
ghost use Rattle.std.specs.Prelude.{◌≡◌, ◌^◌, ◌<◌, ◌-◌, min, slice_index, ℕ, List, [], ◌∷◌, ◌++◌, length, IfOk, OnOk, OnErr, IsTrue, ◌↔◌, Contains};
ghost use Rattle.avm_outside.specs.Mem.{next_call};
ghost use Rattle.avm_outside.specs.Outside.{Rises};
ghost use Rattle.avm_outside.specs.Bounds.{IsEvent};
ghost use Rattle.avm_outside.specs.Feed.{timed};
ghost use Rattle.avm_outside.specs.Events.{event_of};

use crate::calls::Calls;
use crate::event::TimedEvent;
use crate::{Due, Failed, Feed};
use avm_num::NoMemory;
use std::alloc::Global;
use std::collections::VecDeque;

/// A feed in memory. The calls whose numbers, counted from 1, are in its list fail, and no others.
#[derive(Drop)]
pub struct ListFeed {
    alloc: Global,
    events: VecDeque<TimedEvent>,
    end: u64,
    clocks: Vec<u64>,
    asked: u64,
    calls: Calls,
    ghost ends: { end < 2 ^ 62 },
}

impl ListFeed {
    ghost use Rattle.avm_outside.specs.MemFeed.{feed_agenda, feed_fails, feed_calls, feed_faults, SameCounts};

    /// No events, the end at 0, and the numbers of the calls that are to fail.
    pub fn new(alloc: Global, fails: Vec<u64>) -> Result<Self, NoMemory>
        ensures agenda { IfOk result (λ f. feed_agenda f ≡ record { events = []; ending = 0; clocks = []; asked = 0 }) }
        ensures fails { IfOk result (λ f. feed_fails f ≡ fails.items) }
        ensures calls { IfOk result (λ f. feed_calls f ≡ 0) }
        ensures faults { IfOk result (λ f. feed_faults f ≡ 0) }
    {
        Ok(ListFeed {
            alloc,
            events: VecDeque::new(alloc),
            end: 0,
            clocks: Vec::new(alloc),
            asked: 0,
            calls: Calls::new(fails),
        })
    }

    /// Adds an event behind the others.
    pub fn push(&mut self, at: u64, event: Due, bytes: &[u8]) -> Result<(), NoMemory>
        requires count { at < 2 ^ 62 }
        requires event { IsEvent event (length bytes.now) }
        ensures added { OnOk result (feed_agenda self.new ≡ record (feed_agenda self.old) { events = (feed_agenda self.old).events ++ timed at (event_of event bytes.now) ∷ [] }) }
        ensures failed { OnErr result (feed_agenda self.new ≡ feed_agenda self.old) }
        ensures same { SameCounts self.old self.new }
    {
        let Ok(event) = TimedEvent::new(self.alloc, at, event, bytes) else {
            return Err(NoMemory);
        };
        match self.events.push_back(event) {
            Ok(()) => Ok(()),
            Err(_) => Err(NoMemory),
        }
    }

    /// Adds a clock value behind the others.
    pub fn push_clock(&mut self, value: u64) -> Result<(), NoMemory>
        ensures added { OnOk result (feed_agenda self.new ≡ record (feed_agenda self.old) { clocks = (feed_agenda self.old).clocks ++ value ∷ [] }) }
        ensures failed { OnErr result (feed_agenda self.new ≡ feed_agenda self.old) }
        ensures same { SameCounts self.old self.new }
    {
        match self.clocks.push(value) {
            Ok(()) => Ok(()),
            Err(_) => Err(NoMemory),
        }
    }

    /// Sets the count of the end.
    pub fn set_end(&mut self, count: u64)
        requires { count < 2 ^ 62 }
        ensures value { feed_agenda self.new ≡ record (feed_agenda self.old) { ending = count } }
        ensures same { SameCounts self.old self.new }
    {
        self.end = count;
    }
}

impl Feed for ListFeed {
    ghost use Rattle.std.specs.Prelude.{Some, IsErr};
    ghost use Rattle.avm_outside.specs.Outside.{Counts};
    ghost use Rattle.avm_outside.specs.Bounds.{IsBounded};
    ghost use Rattle.avm_outside.specs.Feed.{answer_of, Gave, clock_of, with_asked};
    ghost use Rattle.avm_outside.specs.MemFeed.{feed_agenda, feed_fails, feed_calls, feed_faults};

    ghost faults = { λ f. f.calls.faults };

    ghost agenda = { λ f. Some (record { events = f.events.items; ending = f.end; clocks = f.clocks.items; asked = f.asked }) };

    ghost answer = { answer_of };

    fn next(&mut self, count: u64, running: bool, buf: &mut [u8; 24576]) -> Result<Due, Failed>
        ensures bounds { IfOk result (λ due. IsBounded due count) }
        ensures answer { IfOk result (λ due. due ≡ answer_of (feed_agenda self.old) count running) }
        ensures given { IfOk result (λ due. Gave due (feed_agenda self.old) (feed_agenda self.new) buf.old buf.new) }
        ensures failed { OnErr result (feed_agenda self.new ≡ feed_agenda self.old) }
        ensures faults { Counts (feed_faults self.old) (feed_faults self.new) result }
        ensures listed { IsErr result ↔ Contains (feed_fails self.old) (feed_calls self.new) }
        ensures calls { feed_calls self.new ≡ next_call (feed_calls self.old) }
        ensures fails { feed_fails self.new ≡ feed_fails self.old }
    {
        if self.calls.count() {
            return Err(self.calls.fail());
        }
        match self.events.front() {
            None if running && count < self.end => Ok(Due::Later(self.end)),
            None => Ok(Due::End),
            Some(event) if running && count < event.at() => Ok(Due::Later(event.at())),
            Some(event) => {
                let due = event.due();
                event.put(buf);
                self.events.pop_front();
                Ok(due)
            }
        }
    }

    fn clock(&mut self) -> Result<u64, Failed>
        ensures value { IfOk result (λ value. value ≡ clock_of (feed_agenda self.old)) }
        ensures asked { OnOk result (feed_agenda self.new ≡ with_asked (feed_agenda self.old)) }
        ensures failed { OnErr result (feed_agenda self.new ≡ feed_agenda self.old) }
        ensures faults { Counts (feed_faults self.old) (feed_faults self.new) result }
        ensures listed { IsErr result ↔ Contains (feed_fails self.old) (feed_calls self.new) }
        ensures calls { feed_calls self.new ≡ next_call (feed_calls self.old) }
        ensures fails { feed_fails self.new ≡ feed_fails self.old }
    {
        if self.calls.count() {
            return Err(self.calls.fail());
        }
        let value = clock_at(&self.clocks, self.asked);
        self.asked = self.asked.saturating_add(1);
        Ok(value)
    }
}

// The value at a place, or the last one, or 0 where there is none.
fn clock_at(clocks: &[u64], place: u64) -> u64
    ensures { result ≡ slice_index clocks.now (min place (length clocks.now - 1)) }
{
    match clocks.last() {
        None => 0,
        Some(last) if place >= clocks.len() as u64 => *last,
        Some(_) => clocks[place as usize],
    }
}
