ghost use Rattle.std.specs.Prelude.{◌≡◌, ◌≤◌, ◌<◌, ◌++◌, [], true, length, take, IfOk, IsSome, IsTrue, is_some};

use crate::filling::{Part, ends, fill, is_live, settle};
use crate::place::{Place, Stage, start_place};
use crate::store::Store;
use avm_model::Digest;
use avm_num::{NoMemory, View, are_bytes};
use log_entry::{Frame, read_frame};
use std::alloc::Global;
use std::marker::Model;

/// A reader of a segment that comes in pieces.
#[derive(Drop)]
pub struct SegReader {
    store: Store,
    place: Place,
}

impl Model for SegReader {
    ghost use Rattle.seg_file.specs.Reading.{Reading, reading_of, IsReader};

    ghost Value = { Reading };

    ghost view = { reading_of };

    ghost invariant = { IsReader };
}

impl SegReader {
    ghost use Rattle.avm_model.specs.Content.{content_at};
    ghost use Rattle.avm_model.specs.Frame.{FrameData, FitsFrame, frame_at, frame_bytes};
    ghost use Rattle.avm_model.specs.Segment.{SegmentFront, FitsSegmentFront, segment_front_bytes};
    ghost use Rattle.log_entry.specs.Views.{frame_view};
    ghost use Rattle.seg_file.specs.Coming.{Coming, nothing, taken, segment_in};
    ghost use Rattle.seg_file.specs.Filling.{is_end};
    ghost use Rattle.seg_file.specs.Reading.{Took, Goes, IsHeld, IsRead};

    /// A reader that has taken nothing. It alone takes memory.
    pub fn new(alloc: Global) -> Result<SegReader, NoMemory>
        ensures { IfOk result (λ r. Took r nothing) }
    {
        let store = Store::new(alloc)?;
        Ok(SegReader {
            store,
            place: start_place(),
        })
    }

    /// Takes bytes from the front of the piece, up to the end of a part: how many, and which part ends with them. After
    /// Bad each answer is Bad without a byte.
    pub fn take(&mut self, piece: &[u8]) -> (usize, Part)
        ensures count { result.0 ≤ length piece.now }
        ensures goes { (c : Coming) → Took self.old c → Goes result.1 (take result.0 piece.now) c self.new }
        ensures held { IsHeld result.1 self.new.last }
        ensures some { is_end result.1 ≡ true → 0 < result.0 }
        ensures all { result.1 ≡ Part.More → result.0 ≡ length piece.now }
        ensures bad { self.old.place.stage ≡ Stage.Bad → result ≡ (0, Part.Bad) }
    {
        if !is_live(self.place.stage) {
            return (0, Part::Bad);
        }
        let (count, filled) = fill(&mut self.store, self.place.stage, piece);
        are_bytes(self.store.part());
        let part = settle(&mut self.store, &mut self.place, filled);
        (count, part)
    }

    /// The number of the first entry, once Head has come.
    pub fn start(&self) -> u64
        ensures { result ≡ self.now.place.start }
    {
        self.place.start
    }

    /// The chain's hash before the first entry, once Head has come.
    pub fn before(&self) -> Digest
        ensures { result ≡ self.now.place.before }
    {
        self.place.before
    }

    /// How many pages the head says, once Head has come.
    pub fn pages(&self) -> u32
        ensures { result ≡ self.now.place.pages }
    {
        self.place.pages
    }

    /// The head's bytes, after Head until the next call of `take`.
    pub fn head(&self) -> &[u8]
        requires { 49 ≤ length self.now.last }
        ensures { (f : SegmentFront) → FitsSegmentFront f → self.now.last ≡ segment_front_bytes f → result.now ≡ f.head }
    {
        &self.store.last()[49..]
    }

    /// The page, after Page(i) until the next call of `take`.
    pub fn page(&self) -> &[u8; 4096]
        requires { length self.now.last ≡ 4096 }
        ensures { result.now ≡ self.now.last }
    {
        as_page(self.store.last())
    }

    /// The entry's frame, after Frame until the next call of `take`.
    pub fn frame(&self) -> Frame<'_>
        requires { IsSome (frame_at self.now.last) }
        ensures value { (f : FrameData) → FitsFrame f → self.now.last ≡ frame_bytes f → frame_view result ≡ f }
        ensures form { IsSome (content_at result.kind result.content.now) }
    {
        let mut view = View::new(self.store.last());
        match read_frame(&mut view) {
            Some(frame) => frame,
            None => unreachable!(),
        }
    }

    /// Whether the bytes taken are a segment, but for the inside of its head, which is `read_head`'s.
    pub fn whole(&self) -> bool
        ensures exact { (c : Coming) → Took self.now c → result ≡ is_some (segment_in (taken c)) }
        ensures parts { IsTrue result → (c : Coming) → Took self.now c → IsRead c }
    {
        are_bytes(self.store.part());
        ends(&self.place, self.store.part())
    }
}

/// A page's bytes as an array.
fn as_page(bytes: &[u8]) -> &[u8; 4096]
    requires { length bytes.now ≡ 4096 }
    ensures { result.now ≡ bytes.now }
{
    match bytes.try_into() {
        Ok(page) => page,
        Err(_) => unreachable!(),
    }
}
