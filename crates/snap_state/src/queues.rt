ghost use Rattle.std.specs.Prelude.{◌≡◌, ◌+◌, ◌<◌, ◌≤◌, Some, length, slice_get};
ghost use Rattle.std.specs.Int.{w16, w32};
ghost use Rattle.avm_num.specs.Room.{with_bytes, left};
ghost use Rattle.avm_num.specs.Lists.{list_bytes, sized_bytes, many_bytes, be, one};
ghost use Rattle.avm_model.specs.Head.{message_bytes, queues_bytes};
ghost use Rattle.avm_model.specs.Sizes.{messages_size};

use crate::draft::Draft;
use crate::put::put_message;
use guest_dev::Devices;

/// How many bytes wait in the console queue.
fn console_len(devices: &Devices) -> u16
    ensures { result ≡ length devices.now.state.console }
{
    devices.bounds();
    for i in 0..1024u16 {
        if devices.console(i as u32).is_none() {
            return i;
        }
    }
    1024
}

/// How many messages wait.
fn message_count(devices: &Devices) -> u8
    ensures { result ≡ length devices.now.state.messages }
{
    devices.bounds();
    for i in 0..8u8 {
        if devices.message(i as u32).is_none() {
            return i;
        }
    }
    8
}

/// Byte `i` of the console queue.
#[tactic(auto, using(crate::proofs::Puts::nothing_past))]
fn console_at(devices: &Devices, i: u32) -> u8
    requires { i < length devices.now.state.console }
    ensures { slice_get devices.now.state.console i ≡ Some result }
{
    match devices.console(i) {
        Some(byte) => byte,
        None => unreachable!(),
    }
}

/// Message `i`, its peer and its payload.
#[tactic(auto, using(crate::proofs::Puts::nothing_past))]
fn message_at(devices: &Devices, i: u32) -> (u8, &[u8])
    requires { i < length devices.now.state.messages }
    ensures { slice_get devices.now.state.messages i ≡ Some (record { peer = result.0; payload = result.1.now }) }
{
    match devices.message(i) {
        Some(message) => message,
        None => unreachable!(),
    }
}

/// Writes the console queue, oldest byte first.
fn put_console(out: &mut Draft, devices: &Devices, count: u16)
    requires all { count ≡ length devices.now.state.console }
    requires room { count ≤ left out.old }
    ensures value { out.new ≡ with_bytes out.old devices.now.state.console }
    ensures left { left out.new + count ≡ left out.old }
{
    for i in 0..count {
        out.put_u8(console_at(devices, i as u32));
    }
}

/// Writes the messages, oldest first.
fn put_messages(out: &mut Draft, devices: &Devices, count: u8)
    requires all { count ≡ length devices.now.state.messages }
    requires room { messages_size devices.now.state.messages ≤ left out.old }
    ensures value { out.new ≡ with_bytes out.old (list_bytes message_bytes devices.now.state.messages) }
    ensures left { left out.new + messages_size devices.now.state.messages ≡ left out.old }
{
    devices.bounds();
    for i in 0..count {
        let (peer, payload) = message_at(devices, i as u32);
        put_message(out, peer, payload);
    }
}

/// Writes the CLK_HI latch, the line buffer and both queues.
#[tactic(auto, unfolding(avm_model::specs::Head::queues_bytes), using(avm_num::proofs::Writes::written))]
pub fn put_queues(out: &mut Draft, devices: &Devices)
    requires room { 8 + length devices.now.state.line + length devices.now.state.console + messages_size devices.now.state.messages ≤ left out.old }
    ensures value { out.new ≡ with_bytes out.old (queues_bytes (record { latch = devices.now.state.latch; line = devices.now.state.line; console = devices.now.state.console; messages = devices.now.state.messages })) }
    ensures left { left out.new + (8 + length devices.now.state.line + length devices.now.state.console + messages_size devices.now.state.messages) ≡ left out.old }
{
    out.put_u32(devices.regs().latch);
    let line = devices.line();
    out.put_u8(line.len() as u8);
    out.put(line);
    let bytes = console_len(devices);
    out.put_u16(bytes);
    put_console(out, devices, bytes);
    let messages = message_count(devices);
    out.put_u8(messages);
    put_messages(out, devices, messages);
}
