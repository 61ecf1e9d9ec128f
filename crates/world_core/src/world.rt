//! A world: its nodes, the pool of the packets that they released, and how many steps were made.

ghost use Rattle.std.specs.Prelude.{◌<◌, ◌^◌, length};

use crate::node::Node;
use crate::pool::Packet;
use std::alloc::Global;

/// Nodes, counted from 0, and the packets that they released, in order.
#[derive(Drop)]
pub struct World {
    pub(crate) alloc: Global,
    pub(crate) nodes: Vec<Node>,
    pub(crate) pool: Vec<Packet>,
    pub(crate) events: u64,
    pub(crate) ghost few: { length pool.items < 2 ^ 32 },
}
