//! One step.

ghost use Rattle.std.specs.Prelude.{◌≡◌, ◌<◌, ◌≤◌, ◌+◌, ◌-◌, ◌^◌, ◌++◌, ◌∷◌, [], take, map, IfOk, if◌then◌else◌};
ghost use Rattle.avm_model.specs.Device.{Counted};
ghost use Rattle.avm_model.specs.Machine.{Step, is_complete as is_complete_lem, out_line as out_line_lem, out_send as out_send_lem, out_snap as out_snap_lem, came_back as came_back_lem, left as left_lem, emptied as emptied_lem, went as went_lem, halted as halted_lem};
ghost use Rattle.avm_plain.specs.Step.{output_of, stepped_of};

use crate::bells::{after_return, pc_after_return};
use crate::board::Board;
use crate::devices::Devices;
use crate::executing::{Outcome, run};
use crate::hart::{Hart, copy_hart};
use crate::state::{Output, State, Stepped};
use avm_model::{Sent, Status};
use std::alloc::{AllocError, Global};

/// A line is complete at its newline, or at 128 bytes.
fn is_complete(line: &[u8]) -> bool
    ensures { result ≡ is_complete_lem line.now }
{
    let len = line.len();
    len >= 128 || len > 0 && line[len - 1] == 10
}

/// The first `n` bytes.
fn front(alloc: Global, n: usize, bytes: &[u8]) -> Result<Vec<u8>, AllocError>
    ensures { IfOk result (λ v. v.items ≡ take n bytes.now) }
{
    if n < bytes.len() {
        Vec::from_slice(alloc, &bytes[..n])
    } else {
        Vec::from_slice(alloc, bytes)
    }
}

/// The outputs, and one more.
fn with_output(mut outs: Vec<Output>, output: Output) -> Result<Vec<Output>, AllocError>
    ensures { IfOk result (λ v. map output_of v.items ≡ map output_of outs.items ++ output_of output ∷ []) }
{
    outs.push(output)?;
    Ok(outs)
}

/// The outputs, and the line where it goes out.
fn out_line(
    alloc: Global,
    outs: Vec<Output>,
    emits: bool,
    line: &[u8],
) -> Result<Vec<Output>, AllocError>
    ensures { IfOk result (λ v. map output_of v.items ≡ map output_of outs.items ++ out_line_lem emits line.now) }
{
    if !emits {
        return Ok(outs);
    }
    with_output(outs, Output::Out(Vec::from_slice(alloc, line)?))
}

/// The outputs, and what was sent.
fn out_send(
    alloc: Global,
    outs: Vec<Output>,
    sent: Option<Sent>,
    window: &[u8],
) -> Result<Vec<Output>, AllocError>
    ensures { IfOk result (λ v. map output_of v.items ≡ map output_of outs.items ++ out_send_lem sent window.now) }
{
    let Some(Sent { peer, number, len }) = sent else {
        return Ok(outs);
    };
    let payload = front(alloc, len as usize, window)?;
    with_output(
        outs,
        Output::Send {
            peer,
            number,
            payload,
        },
    )
}

/// The outputs, and a snapshot where the count is a multiple of `snap`.
fn out_snap(outs: Vec<Output>, snap: u32, count: u64) -> Result<Vec<Output>, AllocError>
    requires { 0 < snap }
    ensures { IfOk result (λ v. map output_of v.items ≡ map output_of outs.items ++ out_snap_lem snap count) }
{
    if count % snap as u64 != 0 {
        return Ok(outs);
    }
    with_output(outs, Output::Snap)
}

/// The devices, with an empty line where it went out.
fn emptied(alloc: Global, mut devices: Devices, emits: bool) -> Devices
    ensures value { result ≡ emptied_lem devices emits }
    ensures peers { result.peers ≡ devices.peers }
{
    if emits {
        devices.line = Vec::new(alloc);
    }
    devices
}

fn status_after(waits: bool) -> Status
    ensures { result ≡ (if waits then Status.Waiting else Status.Running) }
{
    if waits {
        Status::Waiting
    } else {
        Status::Running
    }
}

/// The hart behind an instruction, where the guest returned from its handler or not.
fn came_back(mut hart: Hart, devices: &Devices, returns: bool) -> Hart
    ensures { result ≡ came_back_lem returns devices.now hart }
{
    if returns {
        hart.pc = pc_after_return(devices.bell, hart.pc);
    }
    hart
}

/// The devices, where the guest returned from its handler or not.
fn left(mut devices: Devices, returns: bool) -> Devices
    ensures value { result ≡ left_lem returns devices }
    ensures peers { result.peers ≡ devices.peers }
{
    if returns {
        devices.bell = after_return(devices.bell);
    }
    devices
}

/// A step that goes on.
fn went(alloc: Global, state: &State, hart: Hart, board: Board) -> Result<Stepped, AllocError>
    requires room { state.now.count < 2 ^ 64 - 1 }
    requires counted { Counted state.now.devices.peers board.devices.peers }
    ensures { IfOk result (λ r. stepped_of r ≡ went_lem state.now hart board) }
{
    let Board {
        ram,
        devices,
        sent,
        waits,
        returns,
    } = board;
    let hart = came_back(hart, &devices, returns);
    let devices = left(devices, returns);
    let count = state.count + 1;
    let emits = is_complete(devices.line.as_slice());
    let outs = out_line(alloc, Vec::new(alloc), emits, devices.line.as_slice())?;
    let outs = out_send(alloc, outs, sent, devices.window.as_slice())?;
    let outs = out_snap(outs, state.snap, count)?;
    let state = State {
        hart,
        ram,
        devices: emptied(alloc, devices, emits),
        snap: state.snap,
        count,
        status: status_after(waits),
    };
    Ok(Stepped { state, outs })
}

/// A step that halts.
fn halted(alloc: Global, state: &State, cause: u32, value: u32) -> Result<Stepped, AllocError>
    requires { state.now.count < 2 ^ 64 - 1 }
    ensures { IfOk result (λ r. stepped_of r ≡ halted_lem state.now cause value) }
{
    let count = state.count + 1;
    let emits = !state.devices.line.is_empty();
    let outs = out_line(alloc, Vec::new(alloc), emits, state.devices.line.as_slice())?;
    let halting = with_output(outs, Output::Halt { cause, value })?;
    let outs = out_snap(halting, state.snap, count)?;
    let state = State {
        hart: copy_hart(&state.hart),
        ram: Vec::from_slice(alloc, state.ram.as_slice())?,
        devices: emptied(alloc, state.devices.copy(alloc)?, emits),
        snap: state.snap,
        count,
        status: Status::Halted,
    };
    Ok(Stepped { state, outs })
}

/// One step: the state after it and the outputs in order.
pub fn step(alloc: Global, state: &State) -> Result<Stepped, AllocError>
    requires { state.now.count < 2 ^ 64 - 1 }
    ensures { IfOk result (λ r. stepped_of r ≡ Step state.now) }
{
    let board = Board {
        ram: Vec::from_slice(alloc, state.ram.as_slice())?,
        devices: state.devices.copy(alloc)?,
        sent: None,
        waits: false,
        returns: false,
    };
    match run(copy_hart(&state.hart), board)? {
        Outcome::Goes(hart, board) => went(alloc, state, hart, board),
        Outcome::Stops { cause, value } => halted(alloc, state, cause, value),
        Outcome::Waits => Ok(Stepped {
            state: state.copy(alloc)?,
            outs: Vec::new(alloc),
        }),
    }
}
