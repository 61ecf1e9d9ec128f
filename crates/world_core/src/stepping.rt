//! Stores join a world, and its steps.

ghost use Rattle.std.specs.Prelude.{◌≡◌, ◌<◌, ◌^◌, ◌+◌, ◌-◌, ◌++◌, ◌∷◌, [], true, false, length, IfOk, None, map, option_map, slice_get};
ghost use Rattle.world_core.specs.Gifts.{FitsGift};
ghost use Rattle.avm_model.specs.Keys.{HasTypes};
ghost use Rattle.std.specs.Vec.{vec_capacity, vec_len};
ghost use Rattle.world_core.specs.Joining.{JoinAnswers};
ghost use Rattle.world_core.specs.Worlds.{FitsDeed, Made, IsWorld, StepsBy, bytes_at, delivered_by, events_of, machine_at, nodes_of, parcel_of, parcel_view, parcels, pool_of, refusal_of, refused_packet};
ghost use Rattle.world_model.specs.EventView.{deed_view, event_view};
ghost use Rattle.world_parts.specs.OneOutlet.{one_packets};

use crate::joining::{opened, other_key, same_id};
use crate::node::Node;
use crate::pool::Packet;
use crate::types::{Parcel, Stepped, WorldFault};
use crate::world::World;
use avm_num::NoMemory;
use avm_outside::MemDisk;
use guest_machine::Machine;
use lms_signer::Signer;
use recorder::RecordFault;
use std::alloc::Global;
use world_model::{Act, Event};
use world_parts::OneOutlet;

/// The bytes of the packet that an act delivers; none where it delivers none.
fn delivered<'a>(pool: &'a [Packet], act: Act<'_>) -> &'a [u8]
    requires there { refused_packet (length pool.now) (delivered_by (deed_view act)) ≡ None }
    requires fits { FitsDeed (deed_view act) }
    ensures bytes { result.now ≡ bytes_at (map parcel_of pool.now) (delivered_by (deed_view act.entry)) }
    ensures fits { FitsGift (deed_view act.entry) result.now }
{
    match act {
        Act::Deliver(number) => pool[number as usize].bytes.bytes(),
        _ => &[],
    }
}

/// Adds a node, where memory suffices.
fn add(nodes: &mut Vec<Node>, node: Node) -> bool
    ensures added { result ≡ true → nodes.new.items ≡ nodes.old.items ++ node ∷ [] }
    ensures same { result ≡ false → nodes.new.items ≡ nodes.old.items }
{
    nodes.push(node).is_ok()
}

/// Joins a packet that was released to a pool that has room for it.
fn release(pool: &mut Vec<Packet>, from: u32, outlet: OneOutlet)
    requires room { vec_len pool.old < vec_capacity pool.old }
    ensures pool { map parcel_of pool.new.items ≡ map parcel_of pool.old.items ++ parcels from (one_packets outlet) }
{
    let Some((to, bytes)) = outlet.into_packet() else {
        return;
    };
    let _kept = pool.push(Packet { from, to, bytes });
}

impl World {
    /// No nodes and no packets.
    pub fn new(alloc: Global) -> Result<World, NoMemory>
        ensures nodes { IfOk result (λ w. nodes_of w ≡ []) }
        ensures pool { IfOk result (λ w. pool_of w ≡ []) }
        ensures events { IfOk result (λ w. events_of w ≡ 0) }
        ensures world { IfOk result IsWorld }
    {
        Ok(World {
            alloc,
            nodes: Vec::new(alloc),
            pool: Vec::new(alloc),
            events: 0,
        })
    }

    /// Opens a store as a node, and gives its number. The refusals, of which the first comes with the least number: `Node` where the store
    /// can't be opened; `Ids` with the node that has the same own id; `Keys` with one of which, or of the new node's rows, the other
    /// is named with another key. Refused, the disk and the signer are dropped.
    pub fn join(&mut self, disk: MemDisk, signer: Signer) -> Result<u32, WorldFault>
        requires types { HasTypes signer }
        requires world { IsWorld self.old }
        ensures joins { JoinAnswers self.old self.new disk signer result }
        ensures world { IsWorld self.new }
    {
        let node = match opened(self.alloc, disk, signer) {
            Ok(node) => node,
            Err(RecordFault::NoMemory) => return Err(WorldFault::NoMemory),
            Err(fault) => return Err(WorldFault::Node(fault)),
        };
        // Own ids are below 16, so no more nodes than that join.
        let number = self.nodes.len();
        if number >= 1 << 16 {
            return Err(WorldFault::NoMemory);
        }
        if let Some(other) = same_id(&self.nodes, node.own) {
            return Err(WorldFault::Ids(other as u32));
        }
        if let Some(other) = other_key(&self.nodes, &node) {
            return Err(WorldFault::Keys(other as u32));
        }
        if add(&mut self.nodes, node) {
            Ok(number as u32)
        } else {
            Err(WorldFault::NoMemory)
        }
    }

    /// Why an event can't come, where it can't.
    fn refusal(&self, event: &Event<'_>) -> Option<Stepped>
        ensures { result ≡ refusal_of (length (nodes_of self.now)) (length (pool_of self.now)) (event_view event.now) }
    {
        if event.node as usize >= self.nodes.len() {
            return Some(Stepped::NoNode);
        }
        match event.act {
            Act::Deliver(number) if number as usize >= self.pool.len() => Some(Stepped::NoPacket),
            _ => None,
        }
    }

    /// One step at a node that is there, and has its packet; the pool has room for one more.
    fn make(&mut self, event: &Event<'_>, outlet: OneOutlet) -> Result<Stepped, NoMemory>
        requires there { refusal_of (length (nodes_of self.old)) (length (pool_of self.old)) (event_view event.now) ≡ None }
        requires fits { FitsDeed (deed_view event.now.act) }
        requires room { vec_len self.old.pool < vec_capacity self.old.pool }
        requires few { length (pool_of self.old) < 2 ^ 32 - 1 }
        requires empty { one_packets outlet ≡ [] }
        requires world { IsWorld self.old }
        ensures made { Made self.old self.new (event_view event.now) result }
        ensures world { IsWorld self.new }
    {
        self.events = self.events.saturating_add(1);
        let mut outlet = outlet;
        let packet = delivered(&self.pool, event.act);
        let node = &mut self.nodes[event.node as usize];
        let from = node.own as u32;
        let (result, kept) = node.step(self.alloc, event, packet, self.events, &mut outlet);
        if kept {
            release(&mut self.pool, from, outlet);
        }
        result
    }

    /// One turn or seal of a node, and the crash that may follow it. A delivery brings the packet of its number, whoever it was released to;
    /// a turn without an event makes at most 65,536 steps; a clock request gets the number of the step, counted from 1. Released
    /// packets join the pool, but for those of an act amid whose disk calls the crash came. The node is opened again on the image that the
    /// crash leaves, and is down where that fails.
    ///
    /// `NoNode` and `NoPacket` come exactly where there is none of that number, and change nothing. Nor does `NoMemory` where the memory
    /// for a packet is wanting; behind a crash the node is then down.
    pub fn step(&mut self, event: &Event<'_>) -> Result<Stepped, NoMemory>
        requires fits { FitsDeed (deed_view event.now.act) }
        requires few { length (pool_of self.old) < 2 ^ 32 - 1 }
        requires world { IsWorld self.old }
        ensures steps { StepsBy (refusal_of (length (nodes_of self.old)) (length (pool_of self.old)) (event_view event.now)) self.old self.new (event_view event.now) result }
        ensures world { IsWorld self.new }
    {
        if let Some(refused) = self.refusal(event) {
            return Ok(refused);
        }
        if self.pool.reserve(1).is_err() {
            return Err(NoMemory);
        }
        let outlet = OneOutlet::new(self.alloc)?;
        self.make(event, outlet)
    }

    /// How many packets were released.
    pub fn packets(&self) -> u32
        ensures { result ≡ length (pool_of self.now) }
    {
        self.pool.len() as u32
    }

    /// A packet by its number, counted from 0; None where there is none.
    pub fn packet(&self, number: u32) -> Option<Parcel<'_>>
        ensures { option_map parcel_view result ≡ slice_get (pool_of self.now) number }
    {
        match self.pool.get(number as usize) {
            Some(packet) => Some(Parcel {
                from: packet.from,
                to: packet.to,
                bytes: packet.bytes.bytes(),
            }),
            None => None,
        }
    }

    /// The machine of a node; None where there is no such node, and where it is down.
    pub fn machine(&self, node: u32) -> Option<&Machine>
        ensures { option_map (λ m. m.now) result ≡ machine_at (nodes_of self.now) node }
    {
        match self.nodes.get(node as usize) {
            Some(node) => node.machine(),
            None => None,
        }
    }
}
