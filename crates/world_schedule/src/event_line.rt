// The lines of events.
ghost use Rattle.std.specs.Prelude.{◌≡◌, ◌<◌, ◌≤◌, length, IfOk, IfSome, option_map};
ghost use Rattle.world_model.specs.EventView.{crash_view};
ghost use Rattle.world_schedule.specs.Read.{deed_of, event_in};
ghost use Rattle.world_schedule.specs.Schedule.{crash_at, crash_named, crash_of, deed_at, deed_named, delivery, event_of, input, repetition, valued};

use crate::cut::{cut, word};
use crate::input::Input;
use crate::values::{byte, bytes_in, long, peer_number, small_number};
use avm_num::NoMemory;
use std::alloc::Global;
use world_model::Crash;

/// What is done at a node.
#[derive(Drop)]
pub enum DeedLine {
    Turn,
    Deliver(u32),
    Console(Input),
    Resend(u32),
    Seal,
}

/// An event of a schedule.
#[derive(Drop)]
pub struct EventLine {
    pub node: u32,
    pub deed: DeedLine,
    pub crash: Option<Crash>,
}

// A delivery of the packet that a word numbers.
fn read_delivery(text: &[u8]) -> Option<DeedLine>
    ensures { option_map deed_of result ≡ delivery text.now }
{
    match small_number(text) {
        Some(number) => Some(DeedLine::Deliver(number)),
        None => None,
    }
}

// Sending again to the peer that a word numbers.
fn read_repetition(text: &[u8]) -> Option<DeedLine>
    ensures { option_map deed_of result ≡ repetition text.now }
{
    match peer_number(text) {
        Some(peer) => Some(DeedLine::Resend(peer)),
        None => None,
    }
}

// Console input that a word writes.
fn read_input(alloc: Global, text: &[u8]) -> Result<Option<DeedLine>, NoMemory>
    ensures { IfOk result (λ d. option_map deed_of d ≡ input text.now) }
{
    match bytes_in(alloc, 256, text)? {
        Some(bytes) => Ok(Some(DeedLine::Console(Input { bytes }))),
        None => Ok(None),
    }
}

// A crash behind its name.
#[tactic(auto, unfolding(crate::specs::Schedule::crash_at))]
fn read_crash(text: &[u8]) -> Option<Crash>
    ensures { option_map crash_view result ≡ crash_at text.now }
{
    let (calls, text) = cut(text, b' ')?;
    let calls = small_number(calls)?;
    let (length, fill) = cut(text, b' ')?;
    let long = long(length)?;
    let fill = byte(fill)?;
    Some(Crash { calls, long, fill })
}

// A crash with its name.
#[tactic(auto, unfolding(crate::specs::Schedule::crash_named))]
fn read_named(text: &[u8]) -> Option<Crash>
    ensures { option_map crash_view result ≡ crash_named text.now }
{
    let (name, text) = cut(text, b' ')?;
    if name == b"crash".as_slice() {
        return read_crash(text);
    }
    None
}

// A deed that has a value, by its name.
#[tactic(auto, unfolding(crate::specs::Schedule::deed_named))]
fn read_valued(alloc: Global, name: &[u8], value: &[u8]) -> Result<Option<DeedLine>, NoMemory>
    ensures { IfOk result (λ d. option_map deed_of d ≡ deed_named name.now value.now) }
{
    if name == b"deliver".as_slice() {
        return Ok(read_delivery(value));
    }
    if name == b"console".as_slice() {
        return read_input(alloc, value);
    }
    if name == b"resend".as_slice() {
        return Ok(read_repetition(value));
    }
    Ok(None)
}

// A deed, and what stands behind it.
type Deeds<'a> = Option<(DeedLine, Option<&'a [u8]>)>;

// A deed that has a value, with what stands behind the value.
fn read_value<'a>(alloc: Global, name: &[u8], text: Option<&'a [u8]>) -> Result<Deeds<'a>, NoMemory>
    ensures { IfOk result (λ o. option_map (λ d. (deed_of d.0, option_map (λ t. t.now) d.1)) o ≡ valued (deed_named name.now) (option_map (λ t. t.now) text.entry)) }
{
    let Some(text) = text else {
        return Ok(None);
    };
    let (value, behind) = word(text);
    match read_valued(alloc, name, value)? {
        Some(deed) => Ok(Some((deed, behind))),
        None => Ok(None),
    }
}

// A deed by its name, with what stands behind it.
#[tactic(auto, unfolding(crate::specs::Schedule::deed_at))]
fn read_deed<'a>(alloc: Global, name: &[u8], text: Option<&'a [u8]>) -> Result<Deeds<'a>, NoMemory>
    ensures { IfOk result (λ o. option_map (λ d. (deed_of d.0, option_map (λ t. t.now) d.1)) o ≡ deed_at (name.now, option_map (λ t. t.now) text.entry)) }
{
    match name {
        b"turn" => Ok(Some((DeedLine::Turn, text))),
        b"seal" => Ok(Some((DeedLine::Seal, text))),
        _ => read_value(alloc, name, text),
    }
}

// Nothing, or a crash.
fn read_end(text: Option<&[u8]>) -> Option<Option<Crash>>
    ensures { option_map (λ c. option_map crash_view c) result ≡ crash_of (option_map (λ t. t.now) text.entry) }
{
    match text {
        None => Some(None),
        Some(text) => match read_named(text) {
            Some(crash) => Some(Some(crash)),
            None => None,
        },
    }
}

// An event by the number of its node and what stands behind that.
#[tactic(auto, unfolding(crate::specs::Schedule::event_of))]
pub fn read_event(alloc: Global, number: &[u8], text: &[u8]) -> Result<Option<EventLine>, NoMemory>
    ensures { IfOk result (λ e. option_map event_in e ≡ event_of number.now text.now) }
{
    let Some(node) = small_number(number) else {
        return Ok(None);
    };
    let (name, behind) = word(text);
    let Some((deed, behind)) = read_deed(alloc, name, behind)? else {
        return Ok(None);
    };
    match read_end(behind) {
        Some(crash) => Ok(Some(EventLine { node, deed, crash })),
        None => Ok(None),
    }
}
