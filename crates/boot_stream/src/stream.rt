// A segment that comes in pieces, compared with an image as they come.
ghost use Rattle.std.specs.Prelude.{◌≡◌, ◌≤◌, ◌<◌, ◌*◌, ◌++◌, ◌∷◌, [], ℕ, List, take, length, IfOk, MatchBool, Some};
ghost use Rattle.avm_model.specs.Segment.{whole_segment_of};
ghost use Rattle.boot_image.specs.Begins.{BeginsAs};
ghost use Rattle.avm_model.specs.Frame.{FrameData};
ghost use Rattle.seg_file.specs.Coming.{Coming, with_page, with_frame};
ghost use Rattle.boot_stream.specs.Booting.{IsSeen, Saw};

use crate::compared::{Compared, compared_of};
use avm_num::{NoMemory, are_bytes};
use seg_file::{Part, SegReader};
use std::alloc::Global;

/// Where the segment stands, the image, what is compared once the head has come, and whether a segment can still come of it.
#[derive(Drop)]
pub struct BootStream<'a> {
    pub reader: SegReader,
    pub image: &'a [u8],
    pub compared: Option<Compared>,
    pub live: bool,
}

// One page more, where the head has come.
fn see_page(compared: &mut Option<Compared>, i: u32, page: &[u8; 4096])
    ensures { (image : List ℕ) (c : Coming) → length c.pages ≡ 4096 * i → c.frames ≡ [] → IsSeen compared.old image c → IsSeen compared.new image (with_page c page.now) }
{
    if let Some(compared) = compared {
        compared.page(i, page);
    }
}

// One entry more, where the head has come.
fn see_entry(compared: &mut Option<Compared>, kind: u8)
    ensures { (image : List ℕ) (c : Coming) (f : FrameData) → f.kind ≡ kind → IsSeen compared.old image c → IsSeen compared.new image (with_frame c f) }
{
    if let Some(compared) = compared {
        compared.entry(kind);
    }
}

impl<'a> BootStream<'a> {
    /// Nothing has come.
    pub fn new(alloc: Global, image: &'a [u8]) -> Result<BootStream<'a>, NoMemory>
        ensures { IfOk result (λ b. Saw b image.now []) }
    {
        let reader = SegReader::new(alloc)?;
        Ok(BootStream {
            reader,
            image,
            compared: None,
            live: true,
        })
    }

    // Takes bytes from the front of the piece, up to the end of a part: how many.
    fn step(&mut self, alloc: Global, piece: &[u8]) -> Result<usize, NoMemory>
        ensures count { IfOk result (λ n. n ≤ length piece.now) }
        ensures some { 0 < length piece.now → IfOk result (λ n. 0 < n) }
        ensures seen { IfOk result (λ n. (image bytes : List ℕ) → Saw self.old image bytes → Saw self.new image (bytes ++ take n piece.now)) }
    {
        are_bytes(piece);
        if !self.live {
            return Ok(piece.len());
        }
        let (count, part) = self.reader.take(piece);
        match part {
            Part::More => Ok(count),
            Part::Head => {
                let compared = compared_of(alloc, self.reader.head(), self.image)?;
                self.compared = Some(compared);
                Ok(count)
            }
            Part::Page(i) => {
                see_page(&mut self.compared, i, self.reader.page());
                Ok(count)
            }
            Part::Frame => {
                see_entry(&mut self.compared, self.reader.frame().kind);
                Ok(count)
            }
            Part::Bad => {
                self.live = false;
                Ok(piece.len())
            }
        }
    }

    /// The next piece.
    pub fn feed(&mut self, alloc: Global, piece: &[u8]) -> Result<(), NoMemory>
        ensures { IfOk result (λ _. (image bytes : List ℕ) → Saw self.old image bytes → Saw self.new image (bytes ++ piece.now)) }
    {
        let mut at = 0;
        while at < piece.len() {
            let count = self.step(alloc, &piece[at..])?;
            at += count;
        }
        Ok(())
    }

    /// Whether all bytes that came are a segment that begins with the boot of the image.
    pub fn begins(&self) -> bool
        ensures { (image bytes : List ℕ) → Saw self.now image bytes → MatchBool result (BeginsAs image (whole_segment_of bytes)) (BeginsAs image (whole_segment_of bytes) → ⊥) }
    {
        if !self.live {
            return false;
        }
        if !self.reader.whole() {
            return false;
        }
        match &self.compared {
            Some(compared) => compared.begins(),
            None => false,
        }
    }
}
