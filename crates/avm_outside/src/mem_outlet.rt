// An outlet in memory.
ghost use Rattle.std.specs.Prelude.{◌≡◌, ◌∷◌, ◌++◌, ℕ, List, [], map, IfOk, OnOk, OnErr, IsTrue, ◌↔◌, Contains, option_copied, option_map, slice_get};
ghost use Rattle.avm_outside.specs.Mem.{next_call};
ghost use Rattle.avm_outside.specs.Outside.{Rises};
ghost use Rattle.avm_outside.specs.Pairs.{packet_pairs};

use crate::calls::Calls;
use crate::{Failed, Outlet};
use avm_num::NoMemory;
use std::alloc::{AllocError, Global};

// A packet and its peer.
#[derive(Drop)]
struct PacketTo {
    peer: u32,
    bytes: Vec<u8>,
}

/// An outlet in memory. The calls whose numbers, counted from 1, are in its list fail; the others fail only for want of
/// memory.
#[derive(Drop)]
pub struct MemOutlet {
    alloc: Global,
    packets: Vec<PacketTo>,
    consoles: Vec<Vec<u8>>,
    auths: Vec<Vec<u8>>,
    calls: Calls,
}

// Adds a copy of the bytes.
fn add(alloc: Global, list: &mut Vec<Vec<u8>>, bytes: &[u8]) -> Result<(), AllocError>
    ensures added { OnOk result (map (λ v. v.items) list.new.items ≡ map (λ v. v.items) list.old.items ++ bytes.now ∷ []) }
    ensures failed { OnErr result (list.new.items ≡ list.old.items) }
{
    let bytes = Vec::from_slice(alloc, bytes)?;
    list.push(bytes)?;
    Ok(())
}

impl MemOutlet {
    ghost use Rattle.avm_outside.specs.MemOutlets.{outlet_released, outlet_fails, outlet_calls, outlet_faults};

    /// Nothing released, and the numbers of the calls that are to fail.
    pub fn new(alloc: Global, fails: Vec<u64>) -> Result<Self, NoMemory>
        ensures released { IfOk result (λ o. outlet_released o ≡ record { packets = []; consoles = []; auths = [] }) }
        ensures fails { IfOk result (λ o. outlet_fails o ≡ fails.items) }
        ensures calls { IfOk result (λ o. outlet_calls o ≡ 0) }
        ensures faults { IfOk result (λ o. outlet_faults o ≡ 0) }
    {
        Ok(MemOutlet {
            alloc,
            packets: Vec::new(alloc),
            consoles: Vec::new(alloc),
            auths: Vec::new(alloc),
            calls: Calls::new(fails),
        })
    }

    /// A packet with its peer, counted from 0; None exactly past the last.
    pub fn packet_at(&self, i: usize) -> Option<(u32, &[u8])>
        ensures { option_map (λ p. (p.0, p.1.now)) result ≡ slice_get (outlet_released self.now).packets i }
    {
        match self.packets.get(i) {
            Some(packet) => Some((packet.peer, packet.bytes.as_slice())),
            None => None,
        }
    }

    /// A piece of the console, counted from 0; None exactly past the last.
    pub fn console_at(&self, i: usize) -> Option<&[u8]>
        ensures { option_copied result ≡ slice_get (outlet_released self.now).consoles i }
    {
        match self.consoles.get(i) {
            Some(bytes) => Some(bytes.as_slice()),
            None => None,
        }
    }

    /// An authenticator, counted from 0; None exactly past the last.
    pub fn auth_at(&self, i: usize) -> Option<&[u8]>
        ensures { option_copied result ≡ slice_get (outlet_released self.now).auths i }
    {
        match self.auths.get(i) {
            Some(bytes) => Some(bytes.as_slice()),
            None => None,
        }
    }
}

// Adds a packet with a copy of the bytes.
fn add_packet(
    alloc: Global,
    list: &mut Vec<PacketTo>,
    peer: u32,
    bytes: &[u8],
) -> Result<(), AllocError>
    ensures added { OnOk result (packet_pairs list.new.items ≡ packet_pairs list.old.items ++ (peer, bytes.now) ∷ []) }
    ensures failed { OnErr result (list.new.items ≡ list.old.items) }
{
    let bytes = Vec::from_slice(alloc, bytes)?;
    list.push(PacketTo { peer, bytes })?;
    Ok(())
}

impl Outlet for MemOutlet {
    ghost use Rattle.std.specs.Prelude.{◌≤◌, length, IsErr};
    ghost use Rattle.avm_outside.specs.Outside.{Counts};
    ghost use Rattle.avm_outside.specs.Outlet.{Released, released, AddsCut, packet, console, auth};
    ghost use Rattle.avm_outside.specs.MemOutlets.{outlet_released, outlet_fails, outlet_calls, outlet_faults};

    ghost faults = { λ o. o.calls.faults };

    ghost Loan = { Unit {0} };

    ghost loan = { λ o. tt };

    ghost Held = { Released };

    ghost adding = { released };

    ghost tearing = { AddsCut released };

    ghost held = { λ o. record { packets = packet_pairs o.packets.items; consoles = map (λ v. v.items) o.consoles.items; auths = map (λ v. v.items) o.auths.items } };

    fn packet(&mut self, peer: u32, bytes: &[u8]) -> Result<(), Failed>
        requires { length bytes.now ≤ 20000 }
        ensures added { OnOk result (outlet_released self.new ≡ released (packet peer bytes.now) (outlet_released self.old)) }
        ensures failed { OnErr result (outlet_released self.new ≡ outlet_released self.old) }
        ensures faults { Counts (outlet_faults self.old) (outlet_faults self.new) result }
        ensures listed { Contains (outlet_fails self.old) (outlet_calls self.new) → IsErr result }
        ensures calls { outlet_calls self.new ≡ next_call (outlet_calls self.old) }
        ensures fails { outlet_fails self.new ≡ outlet_fails self.old }
    {
        if self.calls.count() || add_packet(self.alloc, &mut self.packets, peer, bytes).is_err() {
            return Err(self.calls.fail());
        }
        Ok(())
    }

    fn console(&mut self, bytes: &[u8]) -> Result<(), Failed>
        ensures added { OnOk result (outlet_released self.new ≡ released (console bytes.now) (outlet_released self.old)) }
        ensures failed { OnErr result (outlet_released self.new ≡ outlet_released self.old) }
        ensures faults { Counts (outlet_faults self.old) (outlet_faults self.new) result }
        ensures listed { Contains (outlet_fails self.old) (outlet_calls self.new) → IsErr result }
        ensures calls { outlet_calls self.new ≡ next_call (outlet_calls self.old) }
        ensures fails { outlet_fails self.new ≡ outlet_fails self.old }
    {
        if self.calls.count() || add(self.alloc, &mut self.consoles, bytes).is_err() {
            return Err(self.calls.fail());
        }
        Ok(())
    }

    fn authenticator(&mut self, bytes: &[u8]) -> Result<(), Failed>
        ensures added { OnOk result (outlet_released self.new ≡ released (auth bytes.now) (outlet_released self.old)) }
        ensures failed { OnErr result (outlet_released self.new ≡ outlet_released self.old) }
        ensures faults { Counts (outlet_faults self.old) (outlet_faults self.new) result }
        ensures listed { Contains (outlet_fails self.old) (outlet_calls self.new) → IsErr result }
        ensures calls { outlet_calls self.new ≡ next_call (outlet_calls self.old) }
        ensures fails { outlet_fails self.new ≡ outlet_fails self.old }
    {
        if self.calls.count() || add(self.alloc, &mut self.auths, bytes).is_err() {
            return Err(self.calls.fail());
        }
        Ok(())
    }
}
