//! A buffer that is filled from its front on.

ghost use Rattle.std.specs.Prelude.{◌≡◌, ◌≤◌, ◌+◌, ◌∷◌, [], length, IfOk};
ghost use Rattle.std.specs.Int.{w32, w64};
ghost use Rattle.avm_num.specs.Lists.{be, one};
ghost use Rattle.avm_num.specs.Room.{with_bytes, left};

use std::alloc::Global;
use std::marker::Model;

/// Memory ran out.
#[derive(Clone, Copy)]
pub struct NoMemory;

/// A byte buffer, seen as its bytes and its capacity.
#[derive(Drop)]
pub struct Room {
    store: Vec<u8>,
    len: usize,
}

impl Model for Room {
    ghost use Rattle.std.specs.Prelude.{◌≤◌, take, length};
    ghost use Rattle.avm_num.specs.Room.{Buffer};

    ghost Value = { Buffer };

    ghost view = { λ r. record { bytes = take r.len r.store.items; capacity = length r.store.items } };

    ghost invariant = { λ r. r.len ≤ length r.store.items };
}

impl Room {
    /// An empty buffer for `capacity` bytes. It alone takes memory.
    pub fn new(alloc: Global, capacity: usize) -> Result<Room, NoMemory>
        ensures { IfOk result (λ r. r ≡ record { bytes = []; capacity = capacity }) }
    {
        match vec![in alloc; 0u8; capacity] {
            Ok(store) => Ok(Room { store, len: 0 }),
            Err(_) => Err(NoMemory),
        }
    }

    /// What was put, in order.
    pub fn bytes(&self) -> &[u8]
        ensures { result.now ≡ self.now.bytes }
    {
        &self.store[..self.len]
    }

    /// Makes the buffer empty. Its capacity stays.
    pub fn clear(&mut self)
        ensures { self.new ≡ record self.old { bytes = [] } }
    {
        self.len = 0;
    }

    /// Appends the bytes, which have to fit.
    #[tactic(auto, unfolding(crate::specs::Room::left))]
    pub fn put(&mut self, bytes: &[u8])
        requires { length bytes.now ≤ left self.old }
        ensures value { self.new ≡ with_bytes self.old bytes.now }
        ensures left { left self.new + length bytes.now ≡ left self.old }
    {
        let end = self.len + bytes.len();
        self.store[self.len..end].copy_from_slice(bytes);
        self.len = end;
    }

    /// Appends one byte, which has to fit.
    #[tactic(auto, unfolding(crate::specs::Lists::one))]
    pub fn put_u8(&mut self, value: u8)
        requires { 1 ≤ left self.old }
        ensures value { self.new ≡ with_bytes self.old (one value) }
        ensures left { left self.new + 1 ≡ left self.old }
    {
        self.put(&[value]);
    }

    /// Appends a number as four bytes, big-endian, which have to fit.
    #[tactic(auto, unfolding(crate::specs::Lists::be))]
    pub fn put_u32(&mut self, value: u32)
        requires { 4 ≤ left self.old }
        ensures value { self.new ≡ with_bytes self.old (be w32 value) }
        ensures left { left self.new + 4 ≡ left self.old }
    {
        self.put(&value.to_be_bytes());
    }

    /// Appends a number as eight bytes, big-endian, which have to fit.
    #[tactic(auto, unfolding(crate::specs::Lists::be))]
    pub fn put_u64(&mut self, value: u64)
        requires { 8 ≤ left self.old }
        ensures value { self.new ≡ with_bytes self.old (be w64 value) }
        ensures left { left self.new + 8 ≡ left self.old }
    {
        self.put(&value.to_be_bytes());
    }
}
