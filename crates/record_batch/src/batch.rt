//! The parts that aren't saved yet.

ghost use Rattle.std.specs.Prelude.{◌≡◌, ◌+◌, ◌-◌, ◌*◌, ◌≤◌, [], length, Some, IfOk};
ghost use Rattle.avm_num.specs.Walk.{all_at};
ghost use Rattle.avm_model.specs.Content.{FitsContent};
ghost use Rattle.avm_model.specs.Parts.{IsOrdinal};
ghost use Rattle.journal_model.specs.Part.{keep, longest_head, part_at, seal};
ghost use Rattle.log_entry.specs.Views.{content_view};
ghost use Rattle.record_batch.specs.Keeping.{AreMarks, keep_of};
ghost use Rattle.record_batch.specs.Spelled.{content_size, numbered};
ghost use Rattle.record_model.specs.Recording.{is_large as is_large_lem, is_none};

use crate::keeping::put_keep;
use crate::writing::put_entry;
use avm_num::{NoMemory, Room, are_bytes};
use log_entry::Content;
use rv32_mem::Ram;
use std::alloc::Global;
use std::marker::Model;

/// How many bytes a record has at most.
const LONGEST: usize = 1 << 25;

/// A batch closes by an entry by which it passes this size.
const MOST_OPEN: usize = 32_768;

/// Entries, seals and keeps that aren't saved yet, and the number of the next entry.
#[derive(Drop)]
pub struct Batch {
    room: Room,
    next: u64,
}

impl Model for Batch {
    ghost use Rattle.journal_model.specs.Part.{parts_of};
    ghost use Rattle.record_batch.specs.Batch.{BatchData, IsWhole};

    ghost Value = { BatchData };

    ghost view = { λ b. record { parts = parts_of b.room.bytes; next = b.next } };

    ghost invariant = { λ b. IsWhole b.room };
}

impl Batch {
    ghost use Rattle.record_batch.specs.Batch.{batch_size, with_part, HasPlace};

    /// An empty batch. It alone takes memory.
    pub fn new(alloc: Global, next: u64) -> Result<Batch, NoMemory>
        ensures { IfOk result (λ b. b ≡ record { parts = []; next = next }) }
    {
        let room = Room::new(alloc, LONGEST)?;
        Ok(Batch { room, next })
    }

    /// Makes the batch empty.
    pub fn clear(&mut self)
        ensures { self.new ≡ record self.old { parts = [] } }
    {
        self.room.clear();
    }

    /// The bytes that the parts are.
    pub fn room(&self) -> &Room
        ensures whole { all_at part_at result.now.bytes ≡ Some self.now.parts }
        ensures size { length result.now.bytes ≡ batch_size self.now }
    {
        are_bytes(self.room.bytes());
        &self.room
    }

    /// Whether nothing is in it.
    pub fn is_empty(&self) -> bool
        ensures { result ≡ is_none self.now.parts }
    {
        let bytes = self.room.bytes();
        are_bytes(bytes);
        bytes.len() == 0
    }

    /// Whether it is so large that it closes.
    pub fn is_large(&self) -> bool
        ensures { result ≡ is_large_lem self.now.parts }
    {
        let bytes = self.room.bytes();
        are_bytes(bytes);
        bytes.len() > MOST_OPEN
    }

    /// Adds an entry.
    pub fn add(&mut self, content: Content<'_>)
        requires fits { FitsContent (content_view content) }
        requires number { IsOrdinal self.old.next }
        requires place { HasPlace (14 + content_size (content_view content)) self.old }
        ensures value { self.new ≡ with_part self.old (numbered self.old.next (content_view content.entry)) 1 }
        ensures size { batch_size self.new ≤ batch_size self.old + (14 + content_size (content_view content.entry)) }
    {
        are_bytes(self.room.bytes());
        put_entry(&mut self.room, self.next, content);
        self.next += 1;
    }

    /// Adds a seal.
    pub fn add_seal(&mut self)
        requires place { HasPlace 1 self.old }
        ensures value { self.new ≡ with_part self.old seal 0 }
        ensures size { batch_size self.new ≤ batch_size self.old + 1 }
    {
        are_bytes(self.room.bytes());
        self.room.put_u8(2);
    }

    /// Adds the keep behind the SNAP entry that was added last: the head there, and the pages that have a mark.
    pub fn add_keep(&mut self, head: &[u8], ram: &Ram, marks: &[bool])
        requires head { length head.now ≤ longest_head }
        requires marks { length marks.now ≡ length ram.now.dirty }
        requires number { IsOrdinal (self.old.next - 1) }
        requires place { HasPlace (17 + length head.now + 4100 * length marks.now) self.old }
        ensures value { self.new ≡ with_part self.old (keep (keep_of (self.old.next - 1) head.now marks.now ram.now.bytes)) 0 }
        ensures size { batch_size self.new ≤ batch_size self.old + (17 + length head.now + 4100 * length marks.now) }
        ensures marks { AreMarks marks.now ram.now.bytes }
    {
        are_bytes(self.room.bytes());
        put_keep(&mut self.room, self.next - 1, head, ram, marks);
    }
}
