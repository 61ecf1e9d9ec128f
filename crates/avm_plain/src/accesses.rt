//! What a word access to the devices does.

ghost use Rattle.std.specs.Prelude.{◌≡◌, ◌<◌, ◌-◌, ◌^◌, All, IfOk, IfSome, slice_get};
ghost use Rattle.avm_model.specs.Memory.{number_at as number_at_lem};
ghost use Rattle.avm_model.specs.Device.{Counted, device_load as device_load_lem, device_store as device_store_lem, load_console as load_console_lem, load_clock as load_clock_lem, load_vector as load_vector_lem, load_saved as load_saved_lem, store_vector as store_vector_lem, store_return as store_return_lem, oldest, len_of, peer_of, payload_of, sends as sends_lem, try_send as try_send_lem, idle as idle_lem};
ghost use Rattle.avm_plain.specs.Shown.{loaded_devices, PeersStay};

use crate::devices::Devices;
use crate::memory::{number_at, put_number};
use crate::rows::{next_number, row, send_result, sends_one};
use avm_model::{Bell, Sent, Width};
use std::alloc::AllocError;

/// What a load gives where there is nothing.
const NONE: u32 = 0xffff_ffff;

/// What a word load gives: a value, and the devices after it.
#[derive(Drop)]
pub enum DeviceLoad {
    Gave(u32, Devices),
    NotMapped,
    NoClock,
}

/// CON_IN gives the oldest byte, and removes it.
fn load_console(mut devices: Devices) -> DeviceLoad
    ensures value { loaded_devices result ≡ load_console_lem devices (slice_get devices.console 0) }
    ensures peers { PeersStay devices.peers result }
{
    if devices.console.is_empty() {
        return DeviceLoad::Gave(NONE, devices);
    }
    let byte = devices.console.remove(0);
    DeviceLoad::Gave(byte as u32, devices)
}

/// CLK_LO gives the low half of the pending clock and uses it up; CLK_HI gives the high half from then on.
fn load_clock(mut devices: Devices) -> DeviceLoad
    ensures value { loaded_devices result ≡ load_clock_lem devices devices.clock }
    ensures peers { PeersStay devices.peers result }
{
    let Some(value) = devices.clock else {
        return DeviceLoad::NoClock;
    };
    devices.clock = None;
    devices.latch = (value / 0x1_0000_0000) as u32;
    DeviceLoad::Gave((value % 0x1_0000_0000) as u32, devices)
}

/// BELL_VEC, which version 1 does not have.
fn load_vector(devices: Devices) -> DeviceLoad
    ensures value { loaded_devices result ≡ load_vector_lem devices devices.bell }
    ensures peers { PeersStay devices.peers result }
{
    match devices.bell {
        None => DeviceLoad::NotMapped,
        Some(bell) => DeviceLoad::Gave(bell.vector, devices),
    }
}

/// BELL_PC, which version 1 does not have.
fn load_saved(devices: Devices) -> DeviceLoad
    ensures value { loaded_devices result ≡ load_saved_lem devices devices.bell }
    ensures peers { PeersStay devices.peers result }
{
    match devices.bell {
        None => DeviceLoad::NotMapped,
        Some(bell) => DeviceLoad::Gave(bell.saved, devices),
    }
}

fn message_len(devices: &Devices) -> u32
    ensures { result ≡ len_of (oldest devices.now) }
{
    match devices.messages.get(0) {
        None => NONE,
        Some(message) => message.payload.len() as u32,
    }
}

fn message_peer(devices: &Devices) -> u32
    ensures { result ≡ peer_of (oldest devices.now) }
{
    match devices.messages.get(0) {
        None => NONE,
        Some(message) => message.peer,
    }
}

/// A word of the receive window.
fn message_word(devices: &Devices, i: usize) -> u32
    requires { i < 2 ^ 32 }
    ensures { result ≡ number_at_lem 4 (payload_of (oldest devices.now)) i }
{
    match devices.messages.get(0) {
        None => 0,
        Some(message) => number_at(Width::Word, message.payload.as_slice(), i),
    }
}

/// A word load, by the table of docs/FORMATS.md, "Devices".
pub fn device_load(devices: Devices, address: u32) -> DeviceLoad
    ensures value { loaded_devices result ≡ device_load_lem devices address }
    ensures peers { PeersStay devices.peers result }
{
    let value = match address {
        0x1000_0004 => return load_console(devices),
        0x1000_0008 => return load_clock(devices),
        0x1000_000c => devices.latch,
        0x1000_0014 => message_len(&devices),
        0x1000_0018 => message_peer(&devices),
        0x1000_0020 => devices.tx_peer,
        0x1000_0024 => devices.tx_len,
        0x1000_002c => devices.tx_result,
        0x1000_0030 => return load_vector(devices),
        0x1000_0034 => return load_saved(devices),
        0x1000_1000..0x1000_1400 if address % 4 == 0 => {
            message_word(&devices, address as usize - 0x1000_1000)
        }
        0x1000_2000..0x1000_2400 if address % 4 == 0 => {
            number_at(
                Width::Word,
                devices.window.as_slice(),
                address as usize - 0x1000_2000,
            )
        }
        _ => return DeviceLoad::NotMapped,
    };
    DeviceLoad::Gave(value, devices)
}

/// What a store to TX_SEND sends.
pub fn sends(devices: &Devices) -> Option<Sent>
    requires { All (λ p. p.sent < 2 ^ 64 - 1) devices.now.peers }
    ensures { result ≡ sends_lem devices.now }
{
    let row = row(devices.peers.as_slice(), devices.tx_peer);
    if send_result(devices.tx_len, row) != 0 {
        return None;
    }
    Some(Sent {
        peer: devices.tx_peer,
        number: next_number(row),
        len: devices.tx_len,
    })
}

/// The devices after a store to TX_SEND.
fn try_send(mut devices: Devices) -> Devices
    requires { All (λ p. p.sent < 2 ^ 64 - 1) devices.peers }
    ensures value { result ≡ try_send_lem devices }
    ensures counted { Counted devices.peers result.peers }
{
    let row = row(devices.peers.as_slice(), devices.tx_peer);
    devices.tx_result = send_result(devices.tx_len, row);
    if devices.tx_result == 0 {
        let id = devices.tx_peer;
        sends_one(devices.peers.as_mut_slice(), id);
    }
    devices
}

/// Both queues are empty.
pub fn idle(devices: &Devices) -> bool
    ensures { result ≡ idle_lem devices.now }
{
    devices.console.is_empty() && devices.messages.is_empty()
}

/// BELL_VEC takes a word with bits 0 and 1 cleared.
fn store_vector(mut devices: Devices, value: u32) -> Option<Devices>
    ensures value { result ≡ store_vector_lem devices value devices.bell }
    ensures peers { IfSome result (λ d. d.peers ≡ devices.peers) }
{
    let bell = devices.bell?;
    devices.bell = Some(Bell {
        vector: value / 4 * 4,
        ..bell
    });
    Some(devices)
}

/// A store to BELL_RET changes no device; the return follows the instruction.
fn store_return(devices: Devices) -> Option<Devices>
    ensures value { result ≡ store_return_lem devices devices.bell }
    ensures peers { IfSome result (λ d. d.peers ≡ devices.peers) }
{
    match devices.bell {
        None => None,
        Some(_) => Some(devices),
    }
}

/// The devices after a word store, by the table of docs/FORMATS.md, "Devices"; None exactly where it allows none.
pub fn device_store(
    mut devices: Devices,
    address: u32,
    value: u32,
) -> Result<Option<Devices>, AllocError>
    requires { All (λ p. p.sent < 2 ^ 64 - 1) devices.peers }
    ensures value { IfOk result (λ d. d ≡ device_store_lem devices address value) }
    ensures counted { IfOk result (λ d. IfSome d (λ d. Counted devices.peers d.peers)) }
{
    match address {
        0x1000_0000 => devices.line.push((value % 256) as u8)?,
        0x1000_0010 => {}
        0x1000_001c => {
            if !devices.messages.is_empty() {
                let _ = devices.messages.remove(0);
            }
        }
        0x1000_0020 => devices.tx_peer = value,
        0x1000_0024 => devices.tx_len = value,
        0x1000_0028 => return Ok(Some(try_send(devices))),
        0x1000_0030 => return Ok(store_vector(devices, value)),
        0x1000_0038 => return Ok(store_return(devices)),
        0x1000_2000..0x1000_2400 if address % 4 == 0 => {
            let i = address as usize - 0x1000_2000;
            put_number(Width::Word, devices.window.as_mut_slice(), i, value);
        }
        _ => return Ok(None),
    }
    Ok(Some(devices))
}
