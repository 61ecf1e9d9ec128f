ghost use Rattle.std.specs.Prelude.{◌≡◌, ◌≤◌, ◌+◌, ◌++◌, ◌<◌, ◌^◌, List, ℕ, Some, length};
ghost use Rattle.avm_num.specs.Room.{with_bytes, left};
ghost use Rattle.avm_model.specs.Frame.{FrameData, FitsFrame, frame_at, frame_bytes};

use avm_num::Room;

/// Writes a frame at the end. What it writes is read back, whatever follows.
#[tactic(auto, unfolding(avm_model::specs::Frame::frame_bytes), using(avm_num::proofs::Writes::written))]
pub fn put_frame(out: &mut Room, seq: u64, kind: u8, content: &[u8])
    requires short { length content.now < 2 ^ 32 }
    requires room { 13 + length content.now ≤ left out.old }
    ensures value { out.new ≡ with_bytes out.old (frame_bytes (record { seq = seq; kind = kind; content = content.now })) }
    ensures left { left out.new + (13 + length content.now) ≡ left out.old }
    ensures again { (f : FrameData) (rest : List ℕ) → FitsFrame f → frame_at (frame_bytes f ++ rest) ≡ Some (f, rest) }
{
    out.put_u64(seq);
    out.put_u8(kind);
    out.put_u32(content.len() as u32);
    out.put(content);
}
