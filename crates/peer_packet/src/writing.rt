ghost use Rattle.std.specs.Prelude.{◌≡◌, ◌≤◌, ◌+◌, ◌<◌, ◌^◌, Some, length};
ghost use Rattle.avm_num.specs.Room.{with_bytes, left};
ghost use Rattle.avm_model.specs.Packet.{PacketData, packet_bytes, data_bytes, ack_bytes, FitsData, FitsAck, data_at, ack_at};

use avm_hash::Digest;
use avm_num::Room;

/// Writes a packet with this first byte at the end.
#[tactic(auto, unfolding(avm_model::specs::Packet::packet_bytes), using(avm_num::proofs::Writes::written))]
fn put_packet(
    out: &mut Room,
    tag: u8,
    from: u32,
    seq: u64,
    before: &Digest,
    content: &[u8],
    sig: &[u8],
)
    requires content { length content.now < 2 ^ 32 }
    requires sig { length sig.now < 2 ^ 32 }
    requires room { 53 + length content.now + length sig.now ≤ left out.old }
    ensures value { out.new ≡ with_bytes out.old (packet_bytes tag (record { from = from; seq = seq; before = before.now.0; content = content.now; sig = sig.now })) }
    ensures left { left out.new + (53 + length content.now + length sig.now) ≡ left out.old }
{
    out.put_u8(tag);
    out.put_u32(from);
    out.put_u64(seq);
    out.put(&before.0);
    out.put_u32(content.len() as u32);
    out.put(content);
    out.put_u32(sig.len() as u32);
    out.put(sig);
}

/// Writes a DATA packet at the end. What it writes is read back.
pub fn put_data(out: &mut Room, from: u32, seq: u64, before: &Digest, content: &[u8], sig: &[u8])
    requires content { length content.now < 2 ^ 32 }
    requires sig { length sig.now < 2 ^ 32 }
    requires room { 53 + length content.now + length sig.now ≤ left out.old }
    ensures value { out.new ≡ with_bytes out.old (data_bytes (record { from = from; seq = seq; before = before.now.0; content = content.now; sig = sig.now })) }
    ensures left { left out.new + (53 + length content.now + length sig.now) ≡ left out.old }
    ensures again { (p : PacketData) → FitsData p → data_at (data_bytes p) ≡ Some p }
{
    put_packet(out, 1, from, seq, before, content, sig);
}

/// Writes an ACK packet at the end. What it writes is read back.
pub fn put_ack(out: &mut Room, from: u32, seq: u64, before: &Digest, content: &[u8], sig: &[u8])
    requires content { length content.now < 2 ^ 32 }
    requires sig { length sig.now < 2 ^ 32 }
    requires room { 53 + length content.now + length sig.now ≤ left out.old }
    ensures value { out.new ≡ with_bytes out.old (ack_bytes (record { from = from; seq = seq; before = before.now.0; content = content.now; sig = sig.now })) }
    ensures left { left out.new + (53 + length content.now + length sig.now) ≡ left out.old }
    ensures again { (p : PacketData) → FitsAck p → ack_at (ack_bytes p) ≡ Some p }
{
    put_packet(out, 2, from, seq, before, content, sig);
}
