//! A feed of one event, or of none before a count.

ghost use Rattle.std.specs.Prelude.{◌≡◌, ◌^◌, ◌<◌, length};
ghost use Rattle.avm_outside.specs.Bounds.{IsEvent};
ghost use Rattle.world_parts.specs.Holding.{event_agenda, later_agenda};

use avm_outside::{Due, Failed, Feed};
use std::marker::Model;

/// A feed that gives one event at once; or else none before a count, whether the machine runs or not, and from that count on the
/// end. Each clock request gets one value. No call fails. It is seen as what it holds.
#[derive(Drop)]
pub struct OneFeed<'a> {
    due: Option<Due>,
    bytes: &'a [u8],
    later: u64,
    clock: u64,
    asked: u64,
}

impl<'a> Model for OneFeed<'a> {
    ghost use Rattle.std.specs.Prelude.{◌^◌, ◌<◌, ◌∷◌, [], IfSome, length};
    ghost use Rattle.avm_outside.specs.Bounds.{IsEvent};
    ghost use Rattle.avm_outside.specs.Feed.{Agenda};
    ghost use Rattle.world_parts.specs.Holding.{events_in};

    ghost Value = { Agenda };

    ghost view = { λ f. record { events = events_in f.due f.bytes.now; ending = f.later; clocks = f.clock ∷ []; asked = f.asked } };

    ghost invariant = { λ f. IfSome f.due (λ d. IsEvent d (length f.bytes.now)) × (f.later < 2 ^ 62) };
}

impl<'a> OneFeed<'a> {
    /// A feed of an event, whose bytes these are.
    pub fn of(due: Due, bytes: &'a [u8], clock: u64) -> OneFeed<'a>
        requires event { IsEvent due (length bytes.now) }
        ensures { result ≡ event_agenda due bytes.now clock }
    {
        OneFeed {
            due: Some(due),
            bytes,
            later: 0,
            clock,
            asked: 0,
        }
    }

    /// A feed without an event before a count.
    pub fn until(later: u64, clock: u64) -> OneFeed<'a>
        requires later { later < 2 ^ 62 }
        ensures { result ≡ later_agenda later clock }
    {
        OneFeed {
            due: None,
            bytes: &[],
            later,
            clock,
            asked: 0,
        }
    }
}

impl<'a> Feed for OneFeed<'a> {
    ghost use Rattle.std.specs.Prelude.{Some, IfOk, IsOk, OnErr, OnOk, true};
    ghost use Rattle.avm_outside.specs.Bounds.{IsBounded};
    ghost use Rattle.avm_outside.specs.Outside.{Counts};
    ghost use Rattle.avm_outside.specs.Feed.{Gave, answer_of, clock_of, with_asked};

    ghost faults = { λ f. 0 };

    ghost agenda = { λ f. Some f };

    ghost answer = { λ a count running. answer_of a count true };

    fn next(&mut self, count: u64, _running: bool, buf: &mut [u8; 24576]) -> Result<Due, Failed>
        ensures never_fails { IsOk result }
        ensures bounds { IfOk result (λ due. IsBounded due count) }
        ensures answer { IfOk result (λ due. due ≡ answer_of self.old count true) }
        ensures given { IfOk result (λ due. Gave due self.old self.new buf.old buf.new) }
        ensures failed { OnErr result (Some self.new ≡ Some self.old) }
        ensures faults { Counts 0 0 result }
    {
        match self.due {
            Some(due) => {
                buf[..self.bytes.len()].copy_from_slice(self.bytes);
                self.due = None;
                Ok(due)
            }
            None => {
                if count < self.later {
                    return Ok(Due::Later(self.later));
                }
                Ok(Due::End)
            }
        }
    }

    fn clock(&mut self) -> Result<u64, Failed>
        ensures never_fails { IsOk result }
        ensures value { IfOk result (λ value. value ≡ clock_of self.old) }
        ensures asked { OnOk result (Some self.new ≡ Some (with_asked self.old)) }
        ensures failed { OnErr result (Some self.new ≡ Some self.old) }
        ensures faults { Counts 0 0 result }
    {
        self.asked = self.asked.saturating_add(1);
        Ok(self.clock)
    }
}
