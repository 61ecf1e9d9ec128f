// The lines of a script.
ghost use Rattle.std.specs.Prelude.{◌≡◌, ◌<◌, ◌^◌, IfOk, IfSome, Some, None, Err, option_map};
ghost use Rattle.avm_script.specs.Script.{event, event_of, event_line, named_line, line_of};
ghost use Rattle.avm_script.specs.Lines.{line_view, Fits};

use crate::cut::cut;
use crate::values::{bytes_in, number_below, number_in};
use avm_num::NoMemory;
use avm_outside::Due;
use std::alloc::Global;

// What a line says.
#[derive(Drop)]
pub enum Line {
    Passed,
    Clock(u64),
    At(u64, Due, Vec<u8>),
    End(u64),
}

// An event by its kind and its value, at a count.
#[tactic(auto, unfolding(crate::specs::Script::event_of))]
fn read_kind(alloc: Global, at: u64, kind: &[u8], value: &[u8]) -> Result<Option<Line>, NoMemory>
    requires { at < 2 ^ 62 }
    ensures value { IfOk result (λ l. option_map line_view l ≡ option_map (event at) (event_of kind.now value.now)) }
    ensures fits { IfOk result (λ l. IfSome l Fits) }
{
    if kind == b"console".as_slice() {
        let Some(bytes) = bytes_in(alloc, 256, value)? else {
            return Ok(None);
        };
        return Ok(Some(Line::At(at, Due::Console(bytes.len()), bytes)));
    }
    if kind == b"packet".as_slice() {
        let Some(bytes) = bytes_in(alloc, 20000, value)? else {
            return Ok(None);
        };
        return Ok(Some(Line::At(at, Due::Packet(bytes.len()), bytes)));
    }
    if kind == b"resend".as_slice() {
        let Some(peer) = number_below(16, value) else {
            return Ok(None);
        };
        return Ok(Some(Line::At(at, Due::Resend(peer as u32), Vec::new(alloc))));
    }
    Ok(None)
}

// A line that begins with `at`.
#[tactic(auto, unfolding(crate::specs::Script::event_line))]
fn read_event(alloc: Global, text: &[u8]) -> Result<Option<Line>, NoMemory>
    ensures value { IfOk result (λ l. option_map line_view l ≡ event_line text.now) }
    ensures fits { IfOk result (λ l. IfSome l Fits) }
{
    let Some((count, text)) = cut(text, b' ') else {
        return Ok(None);
    };
    let Some(at) = number_below(1 << 62, count) else {
        return Ok(None);
    };
    let Some((kind, value)) = cut(text, b' ') else {
        return Ok(None);
    };
    read_kind(alloc, at, kind, value)
}

// A line by its first word and what stands behind the space.
#[tactic(auto, unfolding(crate::specs::Script::named_line))]
fn read_named(alloc: Global, name: &[u8], text: &[u8]) -> Result<Option<Line>, NoMemory>
    ensures value { IfOk result (λ l. option_map line_view l ≡ named_line name.now text.now) }
    ensures fits { IfOk result (λ l. IfSome l Fits) }
{
    match name {
        b"clock" => Ok(number_in(text).map(Line::Clock)),
        b"at" => read_event(alloc, text),
        b"end" => Ok(number_below(1 << 62, text).map(Line::End)),
        _ => Ok(None),
    }
}

// A line without its byte 10.
#[tactic(auto, unfolding(crate::specs::Script::line_of))]
pub fn read_line(alloc: Global, text: &[u8]) -> Result<Option<Line>, NoMemory>
    ensures value { IfOk result (λ l. option_map line_view l ≡ line_of text.now) }
    ensures fits { IfOk result (λ l. IfSome l Fits) }
{
    match text {
        [] | [b'#', ..] => Ok(Some(Line::Passed)),
        _ => match cut(text, b' ') {
            Some((name, text)) => read_named(alloc, name, text),
            None => Ok(None),
        },
    }
}
