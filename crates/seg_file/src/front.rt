ghost use Rattle.std.specs.Prelude.{◌≡◌};
ghost use Rattle.std.specs.Int.{w32};
ghost use Rattle.std.specs.Option.{option_map};
ghost use Rattle.avm_num.specs.Bytes.{Takes, number_at};
ghost use Rattle.avm_num.specs.Lists.{sized_at};
ghost use Rattle.avm_model.specs.Segment.{segment_front_at};
ghost use Rattle.seg_file.specs.Fronts.{counted_at, counted_view};
ghost use Rattle.seg_file.specs.Views.{front_view};

use avm_model::Digest;
use avm_num::View;

/// A segment where it lies in memory: the number of its first entry, the chain's hash before it, the head and the pages of
/// the state there, and the frames of its entries.
#[derive(Clone, Copy)]
pub struct Segment<'a> {
    pub start: u64,
    pub before: Digest,
    pub head: &'a [u8],
    pub pages: &'a [u8],
    pub frames: &'a [u8],
}

/// What stands before the pages.
#[derive(Clone, Copy)]
pub struct Front<'a> {
    pub start: u64,
    pub before: Digest,
    pub head: &'a [u8],
}

/// The same, with the page count that the head says.
#[derive(Clone, Copy)]
pub struct Counted<'a> {
    pub front: Front<'a>,
    pub pages: u32,
}

/// A length of four bytes, and that many bytes.
fn take_sized<'a>(view: &mut View<'a>) -> Option<&'a [u8]>
    ensures { Takes (λ p. p.now) result view.old view.new (sized_at (number_at w32) view.old) }
{
    let mut rest = View::new(view.rest());
    let len = rest.take_u32()?;
    let bytes = rest.take(len as usize)?;
    *view = rest;
    Some(bytes)
}

/// What stands before the pages, from the front of the bytes.
#[tactic(auto, unfolding(avm_model::specs::Segment::segment_front_at))]
pub fn take_front<'a>(view: &mut View<'a>) -> Option<Front<'a>>
    ensures { Takes front_view result view.old view.new (segment_front_at view.old) }
{
    let mut rest = View::new(view.rest());
    if rest.take_u32()? != 0x41564d53 || rest.take_u8()? != 1 {
        return None;
    }
    let start = rest.take_u64()?;
    let hash = rest.take(32)?;
    let head = take_sized(&mut rest)?;
    let mut before = [0; 32];
    before.copy_from_slice(hash);
    *view = rest;
    Some(Front {
        start,
        before: Digest(before),
        head,
    })
}

/// What stands before the pages, with the page count that its head says.
#[tactic(auto, unfolding(crate::specs::Fronts::counted_at))]
pub fn read_front(part: &[u8]) -> Option<Counted<'_>>
    ensures { option_map counted_view result ≡ counted_at part.now }
{
    let mut view = View::new(part);
    let front = take_front(&mut view)?;
    if front.head.len() < 6 {
        return None;
    }
    let mut number = View::new(&front.head[6..]);
    let pages = number.take_u32()?;
    Some(Counted { front, pages })
}
