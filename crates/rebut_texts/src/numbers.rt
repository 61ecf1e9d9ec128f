// The texts of numbers, compared.
ghost use Rattle.std.specs.Prelude.{◌≡◌, ◌+◌, ◌≤◌, ◌++◌, ◌∷◌, [], length, ℕ, List, IfOk, OnOk, option_map, false, true, None, ◌||◌, ◌==◌};
ghost use Rattle.std.specs.Int.{w64};
ghost use Rattle.avm_num.specs.Lists.{be, one};
ghost use Rattle.avm_model.specs.Memory.{put_at};
ghost use Rattle.avm_model.specs.Chain.{link as link_lem};
ghost use Rattle.avm_model.specs.Frame.{FrameData, frames_of};
ghost use Rattle.log_entry.specs.Views.{frame_view};
ghost use Rattle.rebut_model.specs.Texts.{texts, first_of_all, differ};
ghost use Rattle.rebut_texts.specs.Found.{found_view};
ghost use Rattle.rebut_texts.specs.Walk.{walk_view, compared, finds};

use crate::bytes::{Found, copy_texts};
use crate::comparing::unequal;
use crate::texts::Unequal;
use avm_hash::{Digest, hash};
use avm_num::NoMemory;
use log_chain::next;
use log_entry::{Frame, Frames};
use std::alloc::Global;

/// Puts bytes at a place of a text.
fn put(text: &mut [u8], at: usize, bytes: &[u8])
    requires { at + length bytes.now ≤ length text.old }
    ensures { text.new ≡ put_at text.old at bytes.now }
{
    text[at..at + bytes.len()].copy_from_slice(bytes);
}

/// The text that is hashed for the chain at an entry, behind a hash.
fn link(before: &[u8; 32], seq: u64, kind: u8, content: &[u8; 32]) -> [u8; 73]
    ensures { result ≡ before.now ++ be w64 seq ++ one kind ++ content.now }
{
    let mut text = [0; 73];
    put(&mut text, 0, before);
    put(&mut text, 32, &seq.to_be_bytes());
    put(&mut text, 40, &[kind]);
    put(&mut text, 41, content);
    text
}

/// The text that is hashed for the chain at an entry, behind a hash.
#[tactic(auto, unfolding(avm_model::specs::Chain::link))]
fn link_text(before: &Digest, frame: &Frame<'_>) -> [u8; 73]
    ensures { result ≡ link_lem before.now.0 (frame_view frame.now) }
{
    link(&before.0, frame.seq, frame.kind, &hash(frame.content).0)
}

/// The texts of a number that differ, if they do.
fn differing(
    alloc: Global,
    our_link: &[u8; 73],
    ours: &[u8],
    their_link: &[u8; 73],
    theirs: &[u8],
) -> Result<Option<Found>, NoMemory>
    ensures { IfOk result (λ r. option_map found_view r ≡ first_of_all differ (texts our_link.now their_link.now ∷ texts ours.now theirs.now ∷ [])) }
{
    match unequal(our_link, ours, their_link, theirs) {
        Unequal::No => Ok(None),
        Unequal::Link => Ok(Some(copy_texts(alloc, our_link, their_link)?)),
        Unequal::Content => Ok(Some(copy_texts(alloc, ours, theirs)?)),
    }
}

/// A walk over a journal's entries, first to last, beside the evidence's. It keeps the last texts that differ.
#[derive(Drop)]
pub struct Walk<'a> {
    start: u64,
    begun: bool,
    hash: Digest,
    other: Digest,
    frames: Frames<'a>,
    found: Option<Found>,
}

impl<'a> Walk<'a> {
    /// A walk that begins at an entry of the journal, behind the hash before its first entry, beside frames behind another hash.
    pub fn new(start: u64, before: &Digest, other: &Digest, frames: &'a [u8]) -> Walk<'a>
        ensures { walk_view result ≡ record { start = start; begun = false; hash = before.now.0; other = other.now.0; theirs = frames_of frames.now; found = None } }
    {
        Walk {
            start,
            begun: false,
            hash: *before,
            other: *other,
            frames: Frames::new(frames),
            found: None,
        }
    }

    /// Compares the texts of an entry with those of the evidence's next one.
    fn compare(
        &mut self,
        alloc: Global,
        ours: &Frame<'_>,
        theirs: &Frame<'_>,
    ) -> Result<(), NoMemory>
        ensures { OnOk result (walk_view self.new ≡ compared (walk_view self.old) (frame_view ours.now) (frame_view theirs.now)) }
    {
        let our_link = link_text(&self.hash, ours);
        let their_link = link_text(&self.other, theirs);
        let found = differing(alloc, &our_link, ours.content, &their_link, theirs.content)?;
        if found.is_some() {
            self.found = found;
        }
        self.hash = hash(&our_link);
        self.other = hash(&their_link);
        Ok(())
    }

    /// Goes on with an entry of the journal from the first compared one on.
    fn beside(&mut self, alloc: Global, frame: &Frame<'_>) -> Result<(), NoMemory>
        requires { self.old.begun ≡ true }
        ensures { OnOk result ((fs : List FrameData) → finds (walk_view self.new) fs ≡ finds (walk_view self.old) (frame_view frame.now ∷ fs)) }
    {
        match self.frames.next() {
            Some(theirs) => self.compare(alloc, frame, &theirs),
            None => Ok(()),
        }
    }

    /// Whether an entry of this number is compared.
    fn has_begun(&self, seq: u64) -> bool
        ensures { result ≡ (self.now.begun || seq == self.now.start) }
    {
        self.begun || seq == self.start
    }

    /// Goes on with the journal's next entry.
    #[tactic(auto, using(crate::proofs::Walks::begins, crate::proofs::Walks::passed))]
    pub fn entry(&mut self, alloc: Global, frame: &Frame<'_>) -> Result<(), NoMemory>
        ensures { OnOk result ((fs : List FrameData) → finds (walk_view self.new) fs ≡ finds (walk_view self.old) (frame_view frame.now ∷ fs)) }
    {
        if self.has_begun(frame.seq) {
            self.begun = true;
            self.beside(alloc, frame)
        } else {
            self.hash = next(&self.hash, frame.seq, frame.kind, frame.content);
            Ok(())
        }
    }

    /// The first texts that differ, from the last number down.
    pub fn found(self) -> Option<Found>
        ensures { option_map found_view result ≡ finds (walk_view self.entry) [] }
    {
        self.found
    }
}
