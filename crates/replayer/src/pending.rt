//! Outputs of the last step that no entry has matched yet, and how the next entry is matched.

ghost use Rattle.std.specs.Prelude.{◌≡◌, ◌≤◌, take, [], Some, None, MatchBool, false, true, List, ℕ};
ghost use Rattle.avm_model.specs.Judge.{compare};
ghost use Rattle.avm_model.specs.Reference.{timed, OutAt, SendAt, HaltAt, SnapAt, NothingAt};
ghost use Rattle.guest_machine.specs.Outs.{outs_list, IsOuts};
ghost use Rattle.replayer.specs.Pending.{pending_of, stand_of};

use guest_machine::{Line, Machine, Outs, Sent};

/// The bytes of a line.
fn line_bytes(line: &Line) -> &[u8]
    requires { line.now.len ≤ 128 }
    ensures { result.now ≡ take line.now.len line.now.bytes }
{
    &line.bytes[..line.len as usize]
}

/// The payload of what was sent.
fn payload<'a>(sent: &Sent, window: &'a [u8; 1024]) -> &'a [u8]
    requires { sent.now.len ≤ 1024 }
    ensures { result.now ≡ take sent.now.len window.now }
{
    &window[..sent.len as usize]
}

/// Takes the line off, where it is the next output and that of an OUT entry.
pub fn match_out(machine: &Machine, pending: &mut Outs, count: u64, bytes: &[u8]) -> bool
    requires fits { IsOuts pending.old }
    ensures judged { MatchBool result (compare timed (OutAt count bytes.now) machine.now.state (pending_of machine.now.state pending.old) ≡ Some (stand_of machine.now.state pending.new))
        (compare timed (OutAt count bytes.now) machine.now.state (pending_of machine.now.state pending.old) ≡ None) }
    ensures fits { IsOuts pending.new }
{
    if pending.line.len == 0 || machine.count() != count || line_bytes(&pending.line) != bytes {
        return false;
    }
    pending.line.len = 0;
    true
}

/// Takes the message off, where it is the next output and that of a SEND entry.
pub fn match_send(
    machine: &Machine,
    pending: &mut Outs,
    count: u64,
    peer: u32,
    number: u64,
    bytes: &[u8],
) -> bool
    requires fits { IsOuts pending.old }
    ensures judged { MatchBool result (compare timed (SendAt count peer number bytes.now) machine.now.state (pending_of machine.now.state pending.old) ≡ Some (stand_of machine.now.state pending.new))
        (compare timed (SendAt count peer number bytes.now) machine.now.state (pending_of machine.now.state pending.old) ≡ None) }
    ensures fits { IsOuts pending.new }
{
    let Some(sent) = pending.sent else {
        return false;
    };
    if pending.line.len != 0
        || machine.count() != count
        || sent.peer != peer
        || sent.number != number
    {
        return false;
    }
    if payload(&sent, machine.devices().window()) != bytes {
        return false;
    }
    pending.sent = None;
    true
}

/// Takes the halt off, where it is the next output and that of a HALT entry.
pub fn match_halt(machine: &Machine, pending: &mut Outs, count: u64, cause: u32, value: u32) -> bool
    requires fits { IsOuts pending.old }
    ensures judged { MatchBool result (compare timed (HaltAt count cause value) machine.now.state (pending_of machine.now.state pending.old) ≡ Some (stand_of machine.now.state pending.new))
        (compare timed (HaltAt count cause value) machine.now.state (pending_of machine.now.state pending.old) ≡ None) }
    ensures fits { IsOuts pending.new }
{
    let Some(halt) = pending.halt else {
        return false;
    };
    if pending.line.len != 0
        || pending.sent.is_some()
        || machine.count() != count
        || halt != (cause, value)
    {
        return false;
    }
    pending.halt = None;
    true
}
