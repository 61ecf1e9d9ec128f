//! Inputs of a log are taken.

ghost use Rattle.std.specs.Prelude.{◌≡◌, Some, None, MatchBool, OnOk, OnErr};
ghost use Rattle.std.specs.Bool.{OnFalse};
ghost use Rattle.avm_model.specs.Judge.{accept};
ghost use Rattle.avm_model.specs.Offer.{OfferConsole, OfferClock, refused, taken};
ghost use Rattle.avm_model.specs.Reference.{timed, take_of};
ghost use Rattle.guest_machine.specs.Given.{refusal_of};
ghost use Rattle.replayer.specs.Incoming.{offer_of, given_at};
ghost use Rattle.replayer.specs.Pending.{pending_of, stand_of, ram_of};
ghost use Rattle.replayer.specs.Taking.{machine_taken};

use crate::offering::{take_ack, take_data};
use guest_machine::{Input, Machine, NotTaken, Outs};

/// An input as a log has it.
#[derive(Clone, Copy)]
pub enum Incoming<'a> {
    Console(&'a [u8]),
    Clock(u64),
    Recv(&'a [u8]),
    Acked(&'a [u8]),
}

/// Takes console bytes.
#[tactic(auto, unfolding(avm_model::specs::Offer::refused, avm_model::specs::Offer::taken))]
fn take_console(machine: &mut Machine, bytes: &[u8]) -> Result<(), NotTaken>
    ensures refusal { refusal_of result ≡ refused machine.old.state (OfferConsole bytes.now) }
    ensures ok { OnOk result (machine.new ≡ machine_taken machine.old (OfferConsole bytes.now)) }
    ensures err { OnErr result (machine.new ≡ machine.old) }
{
    machine.inject(Input::Console(bytes))
}

/// Takes a clock value.
#[tactic(auto, unfolding(avm_model::specs::Offer::refused, avm_model::specs::Offer::taken))]
fn take_clock(machine: &mut Machine, value: u64) -> Result<(), NotTaken>
    ensures refusal { refusal_of result ≡ refused machine.old.state (OfferClock value) }
    ensures ok { OnOk result (machine.new ≡ machine_taken machine.old (OfferClock value)) }
    ensures err { OnErr result (machine.new ≡ machine.old) }
{
    machine.inject(Input::Clock(value))
}

/// Takes an input, or refuses it.
fn take_any(machine: &mut Machine, input: Incoming<'_>) -> Result<(), NotTaken>
    ensures refusal { refusal_of result ≡ refused machine.old.state (offer_of input.entry) }
    ensures ok { OnOk result (machine.new ≡ machine_taken machine.old (offer_of input.entry)) }
    ensures err { OnErr result (machine.new ≡ machine.old) }
{
    match input {
        Incoming::Console(bytes) => take_console(machine, bytes),
        Incoming::Clock(value) => take_clock(machine, value),
        Incoming::Recv(bytes) => take_data(machine, bytes),
        Incoming::Acked(bytes) => take_ack(machine, bytes),
    }
}

/// Takes an input of a log, or refuses it and leaves the machine.
#[tactic(auto, unfolding(avm_model::specs::Reference::take_of))]
pub fn take_at(machine: &mut Machine, count: u64, input: Incoming<'_>) -> bool
    ensures taken { MatchBool result (take_of machine.old.state (given_at count input.entry) ≡ Some machine.new.state) (take_of machine.old.state (given_at count input.entry) ≡ None) }
    ensures ram { ram_of machine.new ≡ ram_of machine.old }
    ensures count { machine.new.state.count ≡ machine.old.state.count }
    ensures same { OnFalse result (machine.new ≡ machine.old) }
{
    take_any(machine, input).is_ok()
}

/// Takes an input at its count, where no output is pending.
pub fn accept_input(machine: &mut Machine, pending: &Outs, count: u64, input: Incoming<'_>) -> bool
    ensures judged { MatchBool result (accept timed (given_at count input.entry) machine.old.state (pending_of machine.old.state pending.now) ≡ Some (stand_of machine.new.state pending.now))
        (accept timed (given_at count input.entry) machine.old.state (pending_of machine.old.state pending.now) ≡ None) }
    ensures ram { ram_of machine.new ≡ ram_of machine.old }
    ensures count { machine.new.state.count ≡ machine.old.state.count }
{
    pending.is_empty() && machine.count() == count && take_at(machine, count, input)
}
