// The lines of a schedule.
ghost use Rattle.std.specs.Prelude.{◌≡◌, ◌<◌, ◌≤◌, length, IfOk, IfSome, option_map, take};
ghost use Rattle.world_schedule.specs.Read.{line_in, node_in};
ghost use Rattle.world_schedule.specs.Schedule.{event, event_of, is_flat, line_of, named_line, node, node_of};

use crate::cut::cut;
use crate::event_line::{EventLine, read_event};
use crate::node_line::NodeLine;
use crate::values::{bytes_in, hex_32};
use avm_num::NoMemory;
use std::alloc::Global;

// What a line says.
#[derive(Drop)]
pub enum Line {
    Passed,
    Node(NodeLine),
    Event(EventLine),
}

// Whether an image doesn't begin as an ELF file does.
fn is_plain(image: &[u8]) -> bool
    ensures { result ≡ is_flat image.now }
{
    !image.starts_with(&[127, 69, 76, 70])
}

// A node's seed and image.
#[tactic(auto, unfolding(crate::specs::Schedule::node_of))]
fn read_node(alloc: Global, text: &[u8]) -> Result<Option<NodeLine>, NoMemory>
    ensures { IfOk result (λ n. option_map node_in n ≡ node_of text.now) }
{
    let Some((seed, image)) = cut(text, b' ') else {
        return Ok(None);
    };
    let Some(seed) = hex_32(seed) else {
        return Ok(None);
    };
    let Some(image) = bytes_in(alloc, 4096, image)? else {
        return Ok(None);
    };
    if is_plain(&image) {
        return Ok(Some(NodeLine { seed, image }));
    }
    Ok(None)
}

// A line that begins with `node`.
fn node_line(alloc: Global, text: &[u8]) -> Result<Option<Line>, NoMemory>
    ensures { IfOk result (λ l. option_map line_in l ≡ option_map node (node_of text.now)) }
{
    match read_node(alloc, text)? {
        Some(node) => Ok(Some(Line::Node(node))),
        None => Ok(None),
    }
}

// A line of an event.
fn event_line(alloc: Global, number: &[u8], text: &[u8]) -> Result<Option<Line>, NoMemory>
    ensures { IfOk result (λ l. option_map line_in l ≡ option_map event (event_of number.now text.now)) }
{
    match read_event(alloc, number, text)? {
        Some(event) => Ok(Some(Line::Event(event))),
        None => Ok(None),
    }
}

// A line by its first word and what stands behind the space.
#[tactic(auto, unfolding(crate::specs::Schedule::named_line))]
fn read_named(alloc: Global, name: &[u8], text: &[u8]) -> Result<Option<Line>, NoMemory>
    ensures { IfOk result (λ l. option_map line_in l ≡ named_line name.now text.now) }
{
    match name {
        b"node" => node_line(alloc, text),
        _ => event_line(alloc, name, text),
    }
}

// A line without its byte 10.
#[tactic(auto, unfolding(crate::specs::Schedule::line_of))]
pub fn read_line(alloc: Global, text: &[u8]) -> Result<Option<Line>, NoMemory>
    ensures { IfOk result (λ l. option_map line_in l ≡ line_of text.now) }
{
    match text {
        [] | [b'#', ..] => Ok(Some(Line::Passed)),
        _ => match cut(text, b' ') {
            Some((name, text)) => read_named(alloc, name, text),
            None => Ok(None),
        },
    }
}
