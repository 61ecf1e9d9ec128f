// The lines of items as text.
ghost use Rattle.std.specs.Prelude.{◌≡◌, ◌++◌, ◌∷◌, IfOk, Some, codes, string_bytes};
ghost use Rattle.std.specs.Fmt.{decimal};
ghost use Rattle.command_parts.specs.Printing.{line};
ghost use Rattle.avm_model.specs.Content.{count_of as count_of_lem};
ghost use Rattle.list_model.specs.Lines.{hex, hex_word as hex_word_of, number_word, some_hex as some_hex_of, name_of as name_of_lem, words_of, content_line as content_line_of, entry_line as entry_line_of, seal_line as seal_line_of};
ghost use Rattle.log_entry.specs.Views.{content_view, frame_view};
ghost use Rattle.list_command.specs.Numbers.{pair_words};

use crate::numbers::{ack_numbers, data_numbers};
use avm_num::are_bytes;
use log_entry::{Content, Frame, content};
use std::alloc::{AllocError, Global};

// Bytes in lower-case hexadecimal digits.
fn hex_text(alloc: Global, bytes: &[u8]) -> Result<String, AllocError>
    ensures { IfOk result (λ t. string_bytes t ≡ hex bytes.now) }
{
    are_bytes(bytes);
    hex::encode(alloc, bytes)
}

// The same behind a space.
fn hex_word(alloc: Global, bytes: &[u8]) -> Result<String, AllocError>
    ensures { IfOk result (λ t. string_bytes t ≡ hex_word_of bytes.now) }
{
    let text = hex_text(alloc, bytes)?;
    format!(in alloc; " {text}")
}

// The same, or nothing where there are no bytes.
fn some_hex(alloc: Global, bytes: &[u8]) -> Result<String, AllocError>
    ensures { IfOk result (λ t. string_bytes t ≡ some_hex_of bytes.now) }
{
    if bytes.is_empty() {
        return Ok(String::new(alloc));
    }
    hex_word(alloc, bytes)
}

// The numbers of a packet, each behind a space.
fn pair_text(alloc: Global, pair: Option<(u32, u64)>) -> Result<String, AllocError>
    ensures { IfOk result (λ t. string_bytes t ≡ pair_words pair) }
{
    match pair {
        Some((from, number)) => format!(in alloc; " {from} {number}"),
        None => Ok(String::new(alloc)),
    }
}

// What a message's line says behind its count.
fn send_text(alloc: Global, peer: u32, number: u64, payload: &[u8]) -> Result<String, AllocError>
    ensures { IfOk result (λ t. string_bytes t ≡ number_word peer ++ number_word number ++ some_hex_of payload.now) }
{
    let payload = some_hex(alloc, payload)?;
    format!(in alloc; " {peer} {number}{payload}")
}

// What stands behind the count.
fn words_text(alloc: Global, content: &Content<'_>) -> Result<String, AllocError>
    ensures { IfOk result (λ t. string_bytes t ≡ words_of (content_view content.now)) }
{
    match content {
        Content::Boot { root, .. } => hex_word(alloc, root),
        Content::Snap { root, .. } => hex_word(alloc, root),
        Content::ConIn { bytes, .. } => hex_word(alloc, bytes),
        Content::Clock { value, .. } => format!(in alloc; " {value}"),
        Content::Recv { packet, .. } => pair_text(alloc, data_numbers(packet)),
        Content::Acked { packet, .. } => pair_text(alloc, ack_numbers(packet)),
        Content::Out { bytes, .. } => hex_word(alloc, bytes),
        Content::Send {
            peer,
            number,
            payload,
            ..
        } => send_text(alloc, *peer, *number, payload),
        Content::Halt { cause, value, .. } => format!(in alloc; " {cause} {value}"),
    }
}

fn name_of(content: &Content<'_>) -> &'static str
    ensures { result.now ≡ name_of_lem (content_view content.now) }
{
    match content {
        Content::Boot { .. } => "BOOT",
        Content::Snap { .. } => "SNAP",
        Content::ConIn { .. } => "CONIN",
        Content::Clock { .. } => "CLOCK",
        Content::Recv { .. } => "RECV",
        Content::Acked { .. } => "ACKED",
        Content::Out { .. } => "OUT",
        Content::Send { .. } => "SEND",
        Content::Halt { .. } => "HALT",
    }
}

fn count_of(content: &Content<'_>) -> u64
    ensures { result ≡ count_of_lem (content_view content.now) }
{
    match content {
        Content::Boot { count, .. } => *count,
        Content::Snap { count, .. } => *count,
        Content::ConIn { count, .. } => *count,
        Content::Clock { count, .. } => *count,
        Content::Recv { count, .. } => *count,
        Content::Acked { count, .. } => *count,
        Content::Out { count, .. } => *count,
        Content::Send { count, .. } => *count,
        Content::Halt { count, .. } => *count,
    }
}

// The line of a content.
fn content_line(alloc: Global, seq: u64, content: &Content<'_>) -> Result<String, AllocError>
    ensures { IfOk result (λ t. string_bytes t ≡ line (content_line_of seq (Some (content_view content.now)))) }
{
    let name = name_of(content);
    let count = count_of(content);
    let words = words_text(alloc, content)?;
    format!(in alloc; "{seq} {name} {count}{words}\n")
}

/// The line of an entry.
pub fn entry_line(alloc: Global, frame: &Frame<'_>) -> Result<String, AllocError>
    ensures { IfOk result (λ t. string_bytes t ≡ line (entry_line_of (frame_view frame.now))) }
{
    let seq = frame.seq;
    match content(frame) {
        Some(content) => content_line(alloc, seq, &content),
        None => format!(in alloc; "{seq}\n"),
    }
}

/// The line of a seal.
pub fn seal_line(alloc: Global, last: u64) -> Result<String, AllocError>
    ensures { IfOk result (λ t. string_bytes t ≡ line (seal_line_of last)) }
{
    format!(in alloc; "seal {last}\n")
}

/// The line of a mark.
pub fn mark_line(alloc: Global, number: u64) -> Result<String, AllocError>
    ensures { IfOk result (λ t. string_bytes t ≡ line (codes "retired" ++ number_word number)) }
{
    format!(in alloc; "retired {number}\n")
}
