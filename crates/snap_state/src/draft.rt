ghost use Rattle.std.specs.Prelude.{◌≡◌, ◌≤◌, ◌+◌, [], length};
ghost use Rattle.std.specs.Int.{w16, w32, w64};
ghost use Rattle.avm_num.specs.Lists.{be, one};
ghost use Rattle.avm_num.specs.Room.{with_bytes, left};

use std::marker::Model;

/// The length of the longest head.
const MOST: usize = 11783;

/// A head while it is written, on the stack: seen as its bytes, with room for the longest head.
#[derive(Drop)]
pub struct Draft {
    store: [u8; MOST],
    len: usize,
}

impl Model for Draft {
    ghost use Rattle.std.specs.Prelude.{◌≤◌, take, length};
    ghost use Rattle.avm_num.specs.Room.{Buffer};

    ghost Value = { Buffer };

    ghost view = { λ d. record { bytes = take d.len d.store; capacity = 11783 } };

    ghost invariant = { λ d. d.len ≤ 11783 };
}

impl Draft {
    #[tactic(auto, unfolding(avm_num::specs::Room::left))]
    pub fn new() -> Draft
        ensures value { result ≡ record { bytes = []; capacity = 11783 } }
        ensures room { left result ≡ 11783 }
    {
        Draft {
            store: [0; MOST],
            len: 0,
        }
    }

    pub fn bytes(&self) -> &[u8]
        ensures value { result.now ≡ self.now.bytes }
        ensures short { length self.now.bytes ≤ 11783 }
    {
        &self.store[..self.len]
    }

    #[tactic(auto, unfolding(avm_num::specs::Room::left))]
    pub fn put(&mut self, bytes: &[u8])
        requires { length bytes.now ≤ left self.old }
        ensures value { self.new ≡ with_bytes self.old bytes.now }
        ensures left { left self.new + length bytes.now ≡ left self.old }
    {
        let end = self.len + bytes.len();
        self.store[self.len..end].copy_from_slice(bytes);
        self.len = end;
    }

    #[tactic(auto, unfolding(avm_num::specs::Lists::one))]
    pub fn put_u8(&mut self, value: u8)
        requires { 1 ≤ left self.old }
        ensures value { self.new ≡ with_bytes self.old (one value) }
        ensures left { left self.new + 1 ≡ left self.old }
    {
        self.put(&[value]);
    }

    #[tactic(auto, unfolding(avm_num::specs::Lists::be))]
    pub fn put_u16(&mut self, value: u16)
        requires { 2 ≤ left self.old }
        ensures value { self.new ≡ with_bytes self.old (be w16 value) }
        ensures left { left self.new + 2 ≡ left self.old }
    {
        self.put(&value.to_be_bytes());
    }

    #[tactic(auto, unfolding(avm_num::specs::Lists::be))]
    pub fn put_u32(&mut self, value: u32)
        requires { 4 ≤ left self.old }
        ensures value { self.new ≡ with_bytes self.old (be w32 value) }
        ensures left { left self.new + 4 ≡ left self.old }
    {
        self.put(&value.to_be_bytes());
    }

    #[tactic(auto, unfolding(avm_num::specs::Lists::be))]
    pub fn put_u64(&mut self, value: u64)
        requires { 8 ≤ left self.old }
        ensures value { self.new ≡ with_bytes self.old (be w64 value) }
        ensures left { left self.new + 8 ≡ left self.old }
    {
        self.put(&value.to_be_bytes());
    }
}
