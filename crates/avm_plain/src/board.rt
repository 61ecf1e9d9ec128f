//! RAM and the devices, as an instruction reads and writes them.

ghost use Rattle.std.specs.Prelude.{◌≡◌, ◌<◌, ◌-◌, ◌*◌, ◌^◌, All, IfOk, IfSome};
ghost use Rattle.avm_model.specs.Machine.{board_load as board_load_lem, load_beyond as load_beyond_lem, board_store as board_store_lem, store_beyond as store_beyond_lem, flat};
ghost use Rattle.avm_model.specs.Values.{bytes_of};
ghost use Rattle.avm_plain.specs.Board.{loaded_board, IsShort, PeersStay};
ghost use Rattle.avm_model.specs.Device.{Counted};

use crate::accesses::{DeviceLoad, device_load, device_store, idle, sends};
use crate::bells::is_entered;
use crate::devices::Devices;
use crate::memory::{place, put_number, ram_load};
use avm_model::{Sent, Width};
use std::alloc::AllocError;
use std::marker::Model;

/// RAM and the devices, what the step at hand sends, whether the guest waits after it, and whether it returns from its
/// handler.
#[derive(Drop)]
pub struct Board {
    pub ram: Vec<u8>,
    pub devices: Devices,
    pub sent: Option<Sent>,
    pub waits: bool,
    pub returns: bool,
}

impl Model for Board {
    ghost use Rattle.std.specs.Prelude.{ℕ, List};
    ghost use Rattle.avm_model.specs.Machine.{BoardOf};

    ghost Value = { BoardOf (List ℕ) };

    ghost view = { λ b. record { ram = b.ram.items; devices = b.devices; send = b.sent; waits = b.waits; returns = b.returns } };
}

/// What a load gives: a value, and the board after it.
#[derive(Drop)]
pub enum BoardLoad {
    Gave(u32, Board),
    NotMapped,
    NoClock,
}

/// Only word accesses reach a device.
fn load_beyond(board: Board, address: u32, width: Width) -> BoardLoad
    ensures value { loaded_board result ≡ load_beyond_lem board address width }
    ensures bound { IsShort (2 ^ (8 * bytes_of width)) result }
    ensures peers { PeersStay board.devices.peers result }
{
    let Width::Word = width else {
        return BoardLoad::NotMapped;
    };
    let Board {
        ram,
        devices,
        sent,
        waits,
        returns,
    } = board;
    match device_load(devices, address) {
        DeviceLoad::Gave(value, devices) => {
            BoardLoad::Gave(
                value,
                Board {
                    ram,
                    devices,
                    sent,
                    waits,
                    returns,
                },
            )
        }
        DeviceLoad::NotMapped => BoardLoad::NotMapped,
        DeviceLoad::NoClock => BoardLoad::NoClock,
    }
}

/// A load, from RAM or a device.
pub fn board_load(board: Board, address: u32, width: Width) -> BoardLoad
    ensures value { loaded_board result ≡ board_load_lem flat board address width }
    ensures bound { IsShort (2 ^ (8 * bytes_of width)) result }
    ensures peers { PeersStay board.devices.peers result }
{
    match ram_load(board.ram.as_slice(), address, width) {
        Some(value) => BoardLoad::Gave(value, board),
        None => load_beyond(board, address, width),
    }
}

/// What the store sends, whether the guest waits and whether it returns follow from the devices before it.
fn store_beyond(
    board: Board,
    address: u32,
    width: Width,
    value: u32,
) -> Result<Option<Board>, AllocError>
    requires { All (λ p. p.sent < 2 ^ 64 - 1) board.devices.peers }
    ensures value { IfOk result (λ b. b ≡ store_beyond_lem board address width value) }
    ensures counted { IfOk result (λ b. IfSome b (λ b. Counted board.devices.peers b.devices.peers)) }
{
    let Width::Word = width else {
        return Ok(None);
    };
    let sent = if address == 0x1000_0028 {
        sends(&board.devices)
    } else {
        None
    };
    let waits = address == 0x1000_0010 && idle(&board.devices);
    let returns = address == 0x1000_0038 && is_entered(board.devices.bell);
    let ram = board.ram;
    match device_store(board.devices, address, value)? {
        None => Ok(None),
        Some(devices) => Ok(Some(Board {
            ram,
            devices,
            sent,
            waits,
            returns,
        })),
    }
}

/// A store, to RAM or a device; None exactly where nothing takes it.
pub fn board_store(
    mut board: Board,
    address: u32,
    width: Width,
    value: u32,
) -> Result<Option<Board>, AllocError>
    requires { All (λ p. p.sent < 2 ^ 64 - 1) board.devices.peers }
    ensures value { IfOk result (λ b. b ≡ board_store_lem flat board address width value) }
    ensures counted { IfOk result (λ b. IfSome b (λ b. Counted board.devices.peers b.devices.peers)) }
{
    match place(board.ram.as_slice(), address, width) {
        Some(i) => {
            put_number(width, board.ram.as_mut_slice(), i, value);
            Ok(Some(board))
        }
        None => store_beyond(board, address, width, value),
    }
}
