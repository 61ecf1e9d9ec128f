//! What holds of a world over every list of steps, as the contract of a function that does nothing.

ghost use Rattle.std.specs.Prelude.{◌≡◌, ◌≤◌, ℕ, [], Result, Some, length, slice_get};
ghost use Rattle.avm_num.specs.declared.buffer.NoMemory.{NoMemory};
ghost use Rattle.avm_model.specs.Device.{row_of};
ghost use Rattle.avm_model.specs.Keys.{KeyData};
ghost use Rattle.avm_model.specs.Machine.{MachineState};
ghost use Rattle.avm_model.specs.declared.Peer.{Peer};
ghost use Rattle.avm_outside.specs.Outlet.{packet};
ghost use Rattle.avm_outside.specs.declared.mem_disk.MemDisk.{MemDisk};
ghost use Rattle.life_model.specs.Life.{Among};
ghost use Rattle.world_core.specs.Joining.{JoinAnswers};
ghost use Rattle.world_core.specs.Worlds.{ParcelData, StepsBy, machine_at, nodes_of, pool_of, refusal_of};
ghost use Rattle.world_core.specs.declared.node.Node.{Node};
ghost use Rattle.world_core.specs.declared.types.Stepped.{Stepped};
ghost use Rattle.world_core.specs.declared.types.WorldFault.{WorldFault};
ghost use Rattle.world_core.specs.declared.world.World.{World};
ghost use Rattle.world_headline.specs.Agreed.{AgreeAt, HonestAt, Leads};
ghost use Rattle.world_headline.specs.Standing.{IsFresh};
ghost use Rattle.world_laws.specs.Network.{Belongs, empty_network};
ghost use Rattle.world_model.specs.Deeds.{EventData};

/// A world without nodes stands for a network without stations. A store that has never recorded joins it, or is refused, and each
/// step, with its crash or without one, leads to a world that a schedule of recorders leads to from there. So over every list of
/// them: what a node has received from another is a front of what the other has sent to it, each message once, and what it counts as
/// acknowledged the other has received, both by the other's acknowledged journal; each node's journal is honest, with the unsaved
/// batch and without it; each packet of the pool is what an entry of an acknowledged journal releases; and no row counts more received messages than
/// the other's counts sent ones.
pub fn worlds_agree()
    ensures begins { (w : World) → nodes_of w ≡ [] → pool_of w ≡ [] → Leads empty_network w }
    ensures joins { (old new : World) (disk : MemDisk) (key : KeyData) (result : Result ℕ WorldFault) → (h : Leads empty_network old) → IsFresh disk → JoinAnswers old new disk key result → Leads h.network new }
    ensures steps { (old new : World) (e : EventData) (result : Result Stepped NoMemory) → (h : Leads empty_network old) → StepsBy (refusal_of (length (nodes_of old)) (length (pool_of old)) e) old new e result → Leads h.network new }
    ensures follows { (old new : World) → (h : Leads empty_network old) → Leads h.network new → Leads empty_network new }
    ensures agreed { (w : World) (i k : ℕ) (x y : Node) → Leads empty_network w → slice_get (nodes_of w) i ≡ Some x → slice_get (nodes_of w) k ≡ Some y → AgreeAt x y }
    ensures honest { (w : World) (i : ℕ) (x : Node) → Leads empty_network w → slice_get (nodes_of w) i ≡ Some x → HonestAt x }
    ensures packets { (w : World) (p : ParcelData) → (h : Leads empty_network w) → Among p (pool_of w) → Belongs h.network (packet p.to p.bytes) }
    ensures counts { (w : World) (i k : ℕ) (m o : MachineState) (row back : Peer) → Leads empty_network w → machine_at (nodes_of w) i ≡ Some m → machine_at (nodes_of w) k ≡ Some o → row_of m.state.devices.peers o.state.devices.own ≡ Some row → row_of o.state.devices.peers m.state.devices.own ≡ Some back → row.received ≤ back.sent }
{}
