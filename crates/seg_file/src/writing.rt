ghost use Rattle.std.specs.Prelude.{◌≡◌, ◌+◌, ◌≤◌, ◌<◌, ◌^◌, length, Some};
ghost use Rattle.avm_num.specs.Room.{with_bytes, left};
ghost use Rattle.avm_model.specs.Segment.{SegmentData, segment_front_bytes, segment_bytes, segment_of, FitsSegment};

use avm_model::Digest;
use avm_num::Room;

/// Writes what stands before the pages: the number of the first entry, the chain's hash before it, and the head. With its pages and
/// its frames behind it, it is a segment, which is read again as it was.
#[tactic(auto, unfolding(avm_model::specs::Segment::segment_front_bytes), using(avm_num::proofs::Writes::written))]
pub fn put_front(out: &mut Room, start: u64, before: &Digest, head: &[u8])
    requires short { length head.now < 2 ^ 32 }
    requires room { 49 + length head.now ≤ left out.old }
    ensures value { out.new ≡ with_bytes out.old (segment_front_bytes (record { start = start; before = before.now.0; head = head.now })) }
    ensures left { left out.new + 49 + length head.now ≡ left out.old }
    ensures again { (s : SegmentData) → FitsSegment s → segment_of (segment_bytes s) ≡ Some s }
{
    out.put_u32(0x41564d53);
    out.put_u8(1);
    out.put_u64(start);
    out.put(&before.0);
    out.put_u32(head.len() as u32);
    out.put(head);
}
