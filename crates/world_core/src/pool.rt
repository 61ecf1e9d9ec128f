//! The packets that nodes released.

ghost use Rattle.std.specs.Prelude.{◌<◌, ◌≤◌, length};

use avm_num::Room;

/// A packet: the own id of the node that released it, the peer that it was released to, and its bytes.
#[derive(Drop)]
pub struct Packet {
    pub from: u32,
    pub to: u32,
    pub bytes: Room,
    pub ghost some: { 0 < length bytes.bytes },
    pub ghost few: { length bytes.bytes ≤ 20000 },
}
