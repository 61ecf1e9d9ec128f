ghost use Rattle.std.specs.Prelude.{◌≡◌, IfSome, IfNone};
ghost use Rattle.std.specs.Option.{option_map};
ghost use Rattle.avm_model.specs.Segment.{SegmentData, FitsSegment, segment_bytes, segment_of};
ghost use Rattle.seg_file.specs.Views.{segment_view};

use crate::entries::entries_fit;
use crate::front::{Segment, take_front};
use avm_num::{View, are_bytes};

#[tactic(auto, unfolding(avm_model::specs::Segment::segment_of))]
fn parse(bytes: &[u8]) -> Option<Segment<'_>>
    ensures { option_map segment_view result ≡ segment_of bytes.now }
{
    let mut view = View::new(bytes);
    let front = take_front(&mut view)?;
    if front.head.len() < 6 {
        return None;
    }
    let mut number = View::new(&front.head[6..]);
    let count = number.take_u32()?;
    let pages = view.take(4096 * count as usize)?;
    let frames = view.rest();
    if bytes.len() > 1 << 26 || !entries_fit(front.start, &front.before.0, frames) {
        return None;
    }
    Some(Segment {
        start: front.start,
        before: front.before,
        head: front.head,
        pages,
        frames,
    })
}

/// The segment that the bytes are, or none where they are none. Of the head only the page count is read, which says how
/// many pages follow: whether its bytes are a head, `read_head` of snap_state says.
pub fn read_segment(bytes: &[u8]) -> Option<Segment<'_>>
    ensures found { IfSome result (λ s. (bytes.now ≡ segment_bytes (segment_view s)) × FitsSegment (segment_view s)) }
    ensures none { IfNone result ((s : SegmentData) → FitsSegment s → bytes.now ≡ segment_bytes s → ⊥) }
    ensures exact { option_map segment_view result ≡ segment_of bytes.now }
{
    are_bytes(bytes);
    parse(bytes)
}
