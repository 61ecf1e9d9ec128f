ghost use Rattle.std.specs.Prelude.{◌≡◌, ◌≤◌, ◌<◌, ◌++◌, [], length, take, IfOk};

use avm_num::NoMemory;
use std::alloc::Global;
use std::marker::Model;

/// The longest part: a content of 24,576 bytes and the fields before it.
const MOST: usize = 24589;

/// The bytes of the part that is coming, and, until more of it comes, those of the part that ended last.
#[derive(Drop)]
pub struct Store {
    bytes: Vec<u8>,
    len: usize,
    last: usize,
}

impl Model for Store {
    ghost use Rattle.seg_file.specs.Held.{Held, held_by, IsStore};

    ghost Value = { Held };

    ghost view = { held_by };

    ghost invariant = { IsStore };
}

impl Store {
    pub fn new(alloc: Global) -> Result<Store, NoMemory>
        ensures { IfOk result (λ s. s ≡ record { part = []; last = [] }) }
    {
        match vec![in alloc; 0u8; MOST] {
            Ok(bytes) => Ok(Store {
                bytes,
                len: 0,
                last: 0,
            }),
            Err(_) => Err(NoMemory),
        }
    }

    /// Adds bytes of the piece to the part, up to a length. The part that ended last is no longer held.
    pub fn fill(&mut self, piece: &[u8], upto: usize) -> usize
        requires { upto ≤ 24589 }
        ensures count { result ≤ length piece.now }
        ensures part { self.new.part ≡ self.old.part ++ take result piece.now }
        ensures all { length self.new.part < upto → result ≡ length piece.now }
        ensures upto { length self.old.part ≤ upto → length self.new.part ≤ upto }
        ensures over { upto ≤ length self.old.part → result ≡ 0 }
        ensures last { self.new.last ≡ [] }
        ensures most { length self.new.part < 24590 }
    {
        let room = upto.saturating_sub(self.len);
        let count = room.min(piece.len());
        self.bytes[self.len..self.len + count].copy_from_slice(&piece[..count]);
        self.len += count;
        self.last = 0;
        count
    }

    /// The bytes of the part that is coming.
    pub fn part(&self) -> &[u8]
        ensures { result.now ≡ self.now.part }
    {
        &self.bytes[..self.len]
    }

    /// The bytes of the part that ended last, as long as they are held.
    pub fn last(&self) -> &[u8]
        ensures { result.now ≡ self.now.last }
    {
        &self.bytes[..self.last]
    }

    /// The part is whole: the next one begins.
    pub fn end(&mut self)
        ensures { self.new ≡ record { part = []; last = self.old.part } }
    {
        self.last = self.len;
        self.len = 0;
    }
}
