//! Steps and inputs on both machines, and whether they agree.

use avm_model::NotTaken;
use avm_plain::{Input, Output, State, asks, can_step, refusal, step, take};
use guest_machine::{Machine, Outs};
use std::alloc::{AllocError, Global};

/// Whether both machines stand at one state, as far as the fast one shows it.
pub fn same_state(machine: &Machine, state: &State) -> bool {
    machine.hart().x == state.hart.x
        && machine.hart().pc == state.hart.pc
        && machine.count() == state.count
        && machine.status() == state.status
        && machine.asks() == asks(state)
        && machine.can_step() == can_step(state)
        && machine.ram().bytes() == state.ram.as_slice()
        && machine.devices().line() == state.devices.line.as_slice()
        && same_bell(machine, state)
        && same_rows(machine, state)
}

fn same_bell(machine: &Machine, state: &State) -> bool {
    match state.devices.bell {
        Some(bell) => machine.devices().version() == 2 && machine.devices().bell() == bell,
        None => machine.devices().version() == 1,
    }
}

/// Whether the counts of messages agree, peer by peer.
fn same_rows(machine: &Machine, state: &State) -> bool {
    let fast = machine.devices().peers();
    let plain = state.devices.peers.as_slice();
    let mut pairs = fast.iter().zip(plain.iter());
    fast.len() == plain.len()
        && pairs.all(|(a, b)| {
            a.sent == b.sent && a.acked == b.acked && a.received == b.received
        })
}

/// Whether the step put this output out.
fn shows(outs: &Outs, output: &Output) -> bool {
    match output {
        Output::Out(bytes) => outs.line.bytes.get(..outs.line.len as usize)
            == Some(bytes.as_slice()),
        Output::Send { peer, number, .. } => match outs.sent {
            Some(sent) => sent.peer == *peer && sent.number == *number,
            None => false,
        },
        Output::Halt { cause, value } => match outs.halt {
            Some(halt) => halt.0 == *cause && halt.1 == *value,
            None => false,
        },
        Output::Snap => outs.snap,
    }
}

/// Whether the step put out these and no more.
fn same_outs(outs: &Outs, plain: &[Output]) -> bool {
    for output in plain {
        if !shows(outs, output) {
            return false;
        }
    }
    let line = (outs.line.len > 0) as usize;
    let sent = outs.sent.is_some() as usize;
    let halt = outs.halt.is_some() as usize;
    plain.len() == line + sent + halt + outs.snap as usize
}

/// Makes one step on both machines, where both can make one, and tells whether they agree.
pub fn step_both(
    alloc: Global,
    machine: &mut Machine,
    state: State,
) -> Result<Option<State>, AllocError> {
    if machine.count() > 10_000 || state.count > 10_000 || !same_state(machine, &state) {
        return Ok(None);
    }
    match machine.try_step() {
        None => Ok(Some(state)),
        Some(outs) => {
            let after = step(alloc, &state)?;
            if !same_outs(&outs, after.outs.as_slice()) {
                return Ok(None);
            }
            Ok(Some(after.state))
        }
    }
}

/// Gives an input to both machines, and tells whether both take it or refuse it for one reason.
pub fn give_both(
    alloc: Global,
    answer: Result<(), NotTaken>,
    state: State,
    input: Input,
) -> Result<Option<State>, AllocError> {
    match (refusal(&state, &input), answer) {
        (None, Ok(())) => Ok(Some(take(alloc, &state, &input)?)),
        (Some(why), Err(other)) => Ok(if why == other { Some(state) } else { None }),
        _ => Ok(None),
    }
}
