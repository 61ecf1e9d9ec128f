//! An outlet that keeps one packet.

ghost use Rattle.std.specs.Prelude.{◌≡◌, ◌<◌, ◌≤◌, [], None, IfOk, IfSome, IsOk, length, option_map, slice_get};

use avm_num::{NoMemory, Room};
use avm_outside::{Failed, Outlet};
use std::alloc::Global;

/// The most bytes of a packet.
const LONGEST: usize = 20_000;

/// An outlet that keeps one packet; lines of the console and authenticators are passed over. A second packet fails, and so does one
/// without bytes.
#[derive(Drop)]
pub struct OneOutlet {
    peer: Option<u32>,
    bytes: Room,
    faults: u64,
    ghost room: { bytes.capacity ≡ 20000 },
    ghost empty: { peer ≡ None → bytes.bytes ≡ [] },
    ghost some: { (peer ≡ None → ⊥) → 0 < length bytes.bytes },
    ghost few: { length bytes.bytes ≤ 20000 },
}

impl OneOutlet {
    ghost use Rattle.avm_outside.specs.Outside.{Rises};
    ghost use Rattle.world_parts.specs.OneOutlet.{one_packets, outlet_faults};

    /// An outlet without a packet. All memory that it needs is taken here.
    pub fn new(alloc: Global) -> Result<OneOutlet, NoMemory>
        ensures packets { IfOk result (λ o. one_packets o ≡ []) }
        ensures faults { IfOk result (λ o. outlet_faults o ≡ 0) }
    {
        let bytes = Room::new(alloc, LONGEST)?;
        Ok(OneOutlet {
            peer: None,
            bytes,
            faults: 0,
        })
    }

    /// The packet, as the peer that it is for and its bytes, where there is one.
    pub fn into_packet(self) -> Option<(u32, Room)>
        ensures value { option_map (λ p. (p.0, p.1.bytes)) result ≡ slice_get (one_packets self) 0 }
        ensures fits { IfSome result (λ p. (0 < length p.1.bytes) × (length p.1.bytes ≤ 20000)) }
    {
        match self.peer {
            Some(peer) => Some((peer, self.bytes)),
            None => None,
        }
    }

    // Counts a fault.
    fn fail(&mut self) -> Failed
        ensures faults { Rises (outlet_faults self.old) (outlet_faults self.new) }
        ensures packets { one_packets self.new ≡ one_packets self.old }
    {
        self.faults = self.faults.saturating_add(1);
        Failed
    }
}

impl Outlet for OneOutlet {
    ghost use Rattle.std.specs.Prelude.{List, ℕ, OnErr, OnOk};
    ghost use Rattle.avm_outside.specs.Outlet.{auth, console, packet};
    ghost use Rattle.avm_outside.specs.Outside.{Counts};
    ghost use Rattle.world_parts.specs.Holding.{packets_in, with_piece};
    ghost use Rattle.world_parts.specs.OneOutlet.{one_packets, outlet_faults};

    ghost faults = { λ o. o.faults };

    ghost Loan = { Unit {0} };

    ghost loan = { λ o. tt };

    ghost Held = { List (ℕ × List ℕ) };

    ghost held = { λ o. packets_in o.peer o.bytes.bytes };

    ghost adding = { with_piece };

    ghost tearing = { λ piece old new. new ≡ old };

    #[tactic(auto, unfolding(avm_num::specs::Room::left))]
    fn packet(&mut self, peer: u32, bytes: &[u8]) -> Result<(), Failed>
        requires { length bytes.now ≤ 20000 }
        ensures added { OnOk result (one_packets self.new ≡ with_piece (packet peer bytes.now) (one_packets self.old)) }
        ensures failed { OnErr result (one_packets self.new ≡ one_packets self.old) }
        ensures first { one_packets self.old ≡ [] → 0 < length bytes.now → IsOk result }
        ensures faults { Counts (outlet_faults self.old) (outlet_faults self.new) result }
    {
        if self.peer.is_some() || bytes.is_empty() {
            return Err(self.fail());
        }
        self.bytes.put(bytes);
        self.peer = Some(peer);
        Ok(())
    }

    fn console(&mut self, _bytes: &[u8]) -> Result<(), Failed>
        ensures ok { IsOk result }
        ensures same { self.new ≡ self.old }
    {
        Ok(())
    }

    fn authenticator(&mut self, _bytes: &[u8]) -> Result<(), Failed>
        ensures ok { IsOk result }
        ensures same { self.new ≡ self.old }
    {
        Ok(())
    }
}
