//! Entries as they are spelled.

ghost use Rattle.std.specs.Prelude.{◌≡◌, ◌+◌, ◌≤◌, ◌++◌, length};
ghost use Rattle.std.specs.Int.{w32, w64};
ghost use Rattle.avm_num.specs.Lists.{be};
ghost use Rattle.avm_num.specs.Room.{with_bytes, left};
ghost use Rattle.avm_model.specs.Content.{FitsContent, content_bytes, halt, kind_of, send};
ghost use Rattle.journal_model.specs.Spelling.{part_bytes};
ghost use Rattle.log_entry.specs.Views.{content_view};
ghost use Rattle.record_batch.specs.Spelled.{content_size, entry_front, numbered};

use avm_num::Room;
use log_entry::Content;

/// The number of a content's kind.
fn kind_number(content: &Content<'_>) -> u8
    ensures { result ≡ kind_of (content_view content.now) }
{
    match content {
        Content::Boot { .. } => 1,
        Content::Snap { .. } => 2,
        Content::ConIn { .. } => 3,
        Content::Clock { .. } => 4,
        Content::Recv { .. } => 5,
        Content::Acked { .. } => 6,
        Content::Out { .. } => 7,
        Content::Send { .. } => 8,
        Content::Halt { .. } => 9,
    }
}

/// How many bytes a content has.
fn content_len(content: Content<'_>) -> usize
    requires { content_size (content_view content) ≤ 19814 }
    ensures { result ≡ content_size (content_view content.entry) }
{
    match content {
        Content::Boot { root, .. } => 8 + root.len(),
        Content::Snap { root, .. } => 8 + root.len(),
        Content::ConIn { bytes, .. } => 8 + bytes.len(),
        Content::Clock { .. } => 16,
        Content::Recv { packet, .. } => 8 + packet.len(),
        Content::Acked { packet, .. } => 8 + packet.len(),
        Content::Out { bytes, .. } => 8 + bytes.len(),
        Content::Send { payload, .. } => 20 + payload.len(),
        Content::Halt { .. } => 16,
    }
}

/// Writes a count, and bytes behind it.
#[tactic(auto, using(avm_num::proofs::Writes::written))]
fn put_counted(room: &mut Room, count: u64, rest: &[u8])
    requires { 8 + length rest.now ≤ left room.old }
    ensures { room.new ≡ with_bytes room.old (be w64 count ++ rest.now) }
{
    room.put_u64(count);
    room.put(rest);
}

/// Writes a count and a clock value.
#[tactic(auto, using(avm_num::proofs::Writes::written))]
fn put_clock(room: &mut Room, count: u64, value: u64)
    requires { 16 ≤ left room.old }
    ensures { room.new ≡ with_bytes room.old (be w64 count ++ be w64 value) }
{
    room.put_u64(count);
    room.put_u64(value);
}

/// Writes what says that a message was sent.
fn put_send(room: &mut Room, count: u64, peer: u32, number: u64, payload: &[u8])
    requires { 20 + length payload.now ≤ left room.old }
    ensures { room.new ≡ with_bytes room.old (content_bytes (send count peer number payload.now)) }
{
    room.put_u64(count);
    room.put_u32(peer);
    room.put_u64(number);
    room.put(payload);
}

/// Writes what says that the machine halted.
fn put_halt(room: &mut Room, count: u64, cause: u32, value: u32)
    requires { 16 ≤ left room.old }
    ensures { room.new ≡ with_bytes room.old (content_bytes (halt count cause value)) }
{
    room.put_u64(count);
    room.put_u32(cause);
    room.put_u32(value);
}

/// Writes a content.
fn put_content(room: &mut Room, content: Content<'_>)
    requires room { content_size (content_view content) ≤ left room.old }
    ensures { room.new ≡ with_bytes room.old (content_bytes (content_view content.entry)) }
{
    match content {
        Content::Boot { count, root } => put_counted(room, count, &root),
        Content::Snap { count, root } => put_counted(room, count, &root),
        Content::ConIn { count, bytes } => put_counted(room, count, bytes),
        Content::Clock { count, value } => put_clock(room, count, value),
        Content::Recv { count, packet } => put_counted(room, count, packet),
        Content::Acked { count, packet } => put_counted(room, count, packet),
        Content::Out { count, bytes } => put_counted(room, count, bytes),
        Content::Send {
            count,
            peer,
            number,
            payload,
        } => put_send(room, count, peer, number, payload),
        Content::Halt {
            count,
            cause,
            value,
        } => put_halt(room, count, cause, value),
    }
}

/// Writes what stands in front of a content of so many bytes.
#[tactic(auto, using(avm_num::proofs::Writes::written))]
fn put_front(room: &mut Room, seq: u64, kind: u8, size: u32)
    requires { 14 ≤ left room.old }
    ensures value { room.new ≡ with_bytes room.old (entry_front seq kind size) }
    ensures left { left room.new + 14 ≡ left room.old }
{
    room.put_u8(1);
    room.put_u64(seq);
    room.put_u8(kind);
    room.put_u32(size);
}

/// Writes the entry of a number.
#[tactic(auto, using(crate::proofs::Spells::size_limit))]
pub fn put_entry(room: &mut Room, seq: u64, content: Content<'_>)
    requires fits { FitsContent (content_view content) }
    requires room { 14 + content_size (content_view content) ≤ left room.old }
    ensures { room.new ≡ with_bytes room.old (part_bytes (numbered seq (content_view content.entry))) }
{
    let size = content_len(content);
    put_front(room, seq, kind_number(&content), size as u32);
    put_content(room, content);
}
