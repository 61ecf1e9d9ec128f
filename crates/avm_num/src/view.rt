//! A cursor over bytes.

ghost use Rattle.std.specs.Prelude.{◌≡◌, IfSome, length};
ghost use Rattle.std.specs.Int.{w32, w64};
ghost use Rattle.avm_num.specs.Bytes.{IsBytes, Takes, number_at, piece_at, byte_at};

use std::marker::Model;

/// A cursor over bytes, seen as those that remain.
#[derive(Drop)]
pub struct View<'a> {
    bytes: &'a [u8],
}

impl<'a> Model for View<'a> {
    ghost use Rattle.std.specs.Prelude.{List, ℕ};

    ghost Value = { List ℕ };

    ghost view = { λ v. v.bytes.now };
}

/// Does nothing. Its clause says what the type of a slice of bytes says: each item is below 256.
pub fn are_bytes(bytes: &[u8])
    ensures { IsBytes bytes.now }
{}

impl<'a> View<'a> {
    /// A cursor at the front of the bytes.
    pub fn new(bytes: &'a [u8]) -> View<'a>
        ensures { result ≡ bytes.now }
    {
        View { bytes }
    }

    /// The bytes that remain. The cursor stays.
    pub fn rest(&self) -> &'a [u8]
        ensures value { result.now ≡ self.now }
        ensures fits { IsBytes self.now }
    {
        are_bytes(self.bytes);
        self.bytes
    }

    /// The next byte. None exactly where none remains.
    pub fn take_u8(&mut self) -> Option<u8>
        ensures { Takes (λ n. n) result self.old self.new (byte_at self.old) }
    {
        match self.bytes {
            [] => None,
            [first, rest @ ..] => {
                self.bytes = rest;
                Some(*first)
            }
        }
    }

    /// The next four bytes as a big-endian number. None exactly where fewer remain, and then the cursor stays.
    pub fn take_u32(&mut self) -> Option<u32>
        ensures { Takes (λ n. n) result self.old self.new (number_at w32 self.old) }
    {
        if self.bytes.len() < 4 {
            return None;
        }
        let (front, rest) = self.bytes.split_at(4);
        self.bytes = rest;
        Some(u32::from_be_bytes([front[0], front[1], front[2], front[3]]))
    }

    /// The next eight bytes as a big-endian number. None exactly where fewer remain, and then the cursor stays.
    pub fn take_u64(&mut self) -> Option<u64>
        ensures { Takes (λ n. n) result self.old self.new (number_at w64 self.old) }
    {
        if self.bytes.len() < 8 {
            return None;
        }
        let (front, rest) = self.bytes.split_at(8);
        self.bytes = rest;
        Some(u64::from_be_bytes([
            front[0], front[1], front[2], front[3], front[4], front[5], front[6], front[7],
        ]))
    }

    /// The next `n` bytes. None exactly where fewer remain, and then the cursor stays.
    pub fn take(&mut self, n: usize) -> Option<&'a [u8]>
        ensures value { Takes (λ p. p.now) result self.old self.new (piece_at n self.old) }
        ensures len { IfSome result (λ p. length p.now ≡ n) }
    {
        if self.bytes.len() < n {
            return None;
        }
        let (front, rest) = self.bytes.split_at(n);
        self.bytes = rest;
        Some(front)
    }
}
