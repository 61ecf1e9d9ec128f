//! Inputs.

ghost use Rattle.std.specs.Prelude.{◌≡◌, ◌+◌, ◌++◌, ◌∷◌, [], IfOk, IfSome, Some, None};
ghost use Rattle.avm_model.specs.Device.{row_of, with_row};
ghost use Rattle.avm_model.specs.Input.{Refusal, Take, Console, receives_one as receives_one_lem, acknowledges as acknowledges_lem, refuse_message as refuse_message_lem, refuse_acked as refuse_acked_lem, is_halted as is_halted_lem, rings as rings_lem, woken as woken_lem};
ghost use Rattle.avm_plain.specs.Input.{input_of};
ghost use Rattle.avm_plain.specs.Peers.{SentKept};

use crate::bells::{after_ring, pc_after_ring};
use crate::devices::{Devices, Message};
use crate::hart::copy_hart;
use crate::rows::{acknowledges, receives_one, row};
use crate::state::{State, asks};
use avm_model::{NotTaken, Peer, Status};
use std::alloc::{AllocError, Global};

/// What comes in.
#[derive(Drop)]
pub enum Input {
    /// Bytes for the console queue.
    Console(Vec<u8>),
    /// The clock that the machine asked for.
    Clock(u64),
    /// A message, with its number.
    Message { number: u64, message: Message },
    /// A peer's acknowledgement of the message of this number.
    Acked { peer: u32, number: u64 },
}

impl Input {
    /// The same input.
    pub fn copy(&self, alloc: Global) -> Result<Input, AllocError>
        ensures { IfOk result (λ i. input_of i ≡ input_of self.now) }
    {
        match self {
            Input::Console(bytes) => Ok(Input::Console(Vec::from_slice(alloc, bytes.as_slice())?)),
            Input::Clock(value) => Ok(Input::Clock(*value)),
            Input::Message { number, message } => Ok(Input::Message {
                number: *number,
                message: message.copy(alloc)?,
            }),
            Input::Acked { peer, number } => Ok(Input::Acked {
                peer: *peer,
                number: *number,
            }),
        }
    }
}

fn is_halted(status: Status) -> bool
    ensures { result ≡ is_halted_lem status }
{
    match status {
        Status::Running | Status::Waiting => false,
        Status::Halted => true,
    }
}

/// What comes in makes a waiting machine run; a halted one stays so.
fn woken(status: Status) -> Status
    ensures { result ≡ woken_lem status }
{
    match status {
        Status::Running | Status::Waiting => Status::Running,
        Status::Halted => Status::Halted,
    }
}

/// The first condition that fails, for a message from the peer of a row.
fn refuse_message(state: &State, number: u64, row: Option<Peer>) -> Option<NotTaken>
    ensures { result ≡ refuse_message_lem state.now number row }
{
    let Some(peer) = row else {
        return Some(NotTaken::UnknownPeer);
    };
    if number == peer.received {
        return Some(NotTaken::Repeated);
    }
    if number < peer.received || number - peer.received != 1 {
        return Some(NotTaken::WrongNumber);
    }
    if is_halted(state.status) {
        return Some(NotTaken::Halted);
    }
    if state.devices.clock.is_some() {
        return Some(NotTaken::ClockPending);
    }
    if state.devices.messages.len() >= 8 {
        return Some(NotTaken::Full);
    }
    None
}

/// The first condition that fails, for an acknowledgement from the peer of a row.
fn refuse_acked(state: &State, number: u64, row: Option<Peer>) -> Option<NotTaken>
    ensures { result ≡ refuse_acked_lem state.now number row }
{
    let Some(peer) = row else {
        return Some(NotTaken::UnknownPeer);
    };
    if number != peer.sent || peer.sent == peer.acked {
        return Some(NotTaken::NotOutstanding);
    }
    if state.devices.clock.is_some() {
        return Some(NotTaken::ClockPending);
    }
    None
}

fn refuse_console(state: &State, bytes: &[u8]) -> Option<NotTaken>
    ensures { result ≡ Refusal state.now (Console bytes.now) }
{
    if is_halted(state.status) {
        return Some(NotTaken::Halted);
    }
    if state.devices.clock.is_some() {
        return Some(NotTaken::ClockPending);
    }
    if state.devices.console.len() + bytes.len() > 1024 {
        return Some(NotTaken::Full);
    }
    None
}

/// The first condition that fails, or none.
pub fn refusal(state: &State, input: &Input) -> Option<NotTaken>
    ensures { result ≡ Refusal state.now (input_of input.now) }
{
    let peers = state.devices.peers.as_slice();
    match input {
        Input::Console(bytes) => refuse_console(state, bytes.as_slice()),
        Input::Clock(_) => {
            if asks(state) && state.devices.clock.is_none() {
                None
            } else {
                Some(NotTaken::NotAsked)
            }
        }
        Input::Message { number, message } => {
            refuse_message(state, *number, row(peers, message.peer))
        }
        Input::Acked { peer, number } => refuse_acked(state, *number, row(peers, *peer)),
    }
}

/// The state with other devices and another status.
fn with_devices(
    alloc: Global,
    state: &State,
    devices: Devices,
    status: Status,
) -> Result<State, AllocError>
    requires { SentKept state.now.devices.peers devices.peers }
    ensures { IfOk result (λ s. s ≡ record state.now { devices = devices; status = status }) }
{
    Ok(State {
        hart: copy_hart(&state.hart),
        ram: Vec::from_slice(alloc, state.ram.as_slice())?,
        devices,
        snap: state.snap,
        count: state.count,
        status,
    })
}

fn add_console(mut devices: Devices, bytes: &[u8]) -> Result<Devices, AllocError>
    ensures value { IfOk result (λ d. d ≡ record devices { console = devices.console ++ bytes.now }) }
    ensures sent { IfOk result (λ d. SentKept devices.peers d.peers) }
{
    devices.console.extend_from_slice(bytes)?;
    Ok(devices)
}

fn put_clock(mut devices: Devices, value: u64) -> Devices
    ensures value { result ≡ record devices { clock = Some value } }
    ensures sent { SentKept devices.peers result.peers }
{
    devices.clock = Some(value);
    devices
}

/// Queues a message and counts it; its number is the next of its peer.
fn add_message(mut devices: Devices, number: u64, message: Message) -> Result<Devices, AllocError>
    requires { IfSome (row_of devices.peers message.peer) (λ p. number ≡ p.received + 1) }
    ensures value { IfOk result (λ d. d ≡ record devices { messages = devices.messages ++ message ∷ []; peers = with_row devices.peers message.peer receives_one_lem }) }
    ensures sent { IfOk result (λ d. SentKept devices.peers d.peers) }
{
    receives_one(devices.peers.as_mut_slice(), message.peer);
    devices.messages.push(message)?;
    Ok(devices)
}

fn count_ack(mut devices: Devices, peer: u32) -> Devices
    ensures value { result ≡ record devices { peers = with_row devices.peers peer acknowledges_lem } }
    ensures sent { SentKept devices.peers result.peers }
{
    acknowledges(devices.peers.as_mut_slice(), peer);
    devices
}

/// The state after a ring of its bell; a halted machine's does not ring, and version 1 has none.
fn rung(mut state: State) -> State
    ensures { result ≡ rings_lem state }
{
    if !is_halted(state.status) {
        let bell = state.devices.bell;
        let pc = state.hart.pc;
        state.hart.pc = pc_after_ring(bell, pc);
        state.devices.bell = after_ring(bell, pc);
    }
    state
}

/// The state after an input that is not refused; all but a clock value ring the bell.
pub fn take(alloc: Global, state: &State, input: &Input) -> Result<State, AllocError>
    requires { Refusal state.now (input_of input.now) ≡ None }
    ensures { IfOk result (λ s. s ≡ Take state.now (input_of input.now)) }
{
    let devices = state.devices.copy(alloc)?;
    let status = woken(state.status);
    match input {
        Input::Console(bytes) => {
            let devices = add_console(devices, bytes.as_slice())?;
            Ok(rung(with_devices(alloc, state, devices, status)?))
        }
        Input::Clock(value) => {
            with_devices(alloc, state, put_clock(devices, *value), state.status)
        }
        Input::Message { number, message } => {
            let devices = add_message(devices, *number, message.copy(alloc)?)?;
            Ok(rung(with_devices(alloc, state, devices, status)?))
        }
        Input::Acked { peer, .. } => {
            let devices = count_ack(devices, *peer);
            Ok(rung(with_devices(alloc, state, devices, status)?))
        }
    }
}
