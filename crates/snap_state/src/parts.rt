ghost use Rattle.std.specs.Prelude.{◌≡◌, is_some, length, IsTrue, true};
ghost use Rattle.std.specs.Option.{option_map};
ghost use Rattle.std.specs.Int.{w16};
ghost use Rattle.avm_num.specs.Bytes.{Takes, byte_at, number_at};
ghost use Rattle.avm_num.specs.Lists.{sized_at};
ghost use Rattle.avm_model.specs.Bell.{is_bell};
ghost use Rattle.avm_model.specs.Bounds.{is_head, is_front, is_hart, are_queues, suits};
ghost use Rattle.avm_model.specs.HeadReading.{status_at, front_at, hart_at, queues_at, transmit_at, version_at, words_at, bell_at, parts_at, head_of};
ghost use Rattle.avm_model.specs.Head.{HeadData, FitsHead, head_bytes};
ghost use Rattle.snap_state.specs.Views.{front_view, hart_view, queues_view, transmit_view, head_view};

use crate::bounds::{has_line_end, messages_fit, none_sent_past, rows_fit};
use crate::messages::{Messages, take_messages};
use crate::peers::{Peers, take_peers};
use crate::words::{take_registers, take_u16};
use avm_model::{Bell, Status};
use avm_num::{View, are_bytes};

#[derive(Drop)]
pub struct FrontParts<'a> {
    pub own: u8,
    pub snap: u32,
    pub pages: u32,
    pub peers: Peers<'a>,
}

#[derive(Drop)]
pub struct HartParts {
    pub x: [u32; 31],
    pub pc: u32,
    pub count: u64,
    pub status: Status,
}

#[derive(Drop)]
pub struct QueuesParts<'a> {
    pub latch: u32,
    pub line: &'a [u8],
    pub console: &'a [u8],
    pub messages: Messages<'a>,
}

#[derive(Drop)]
pub struct TransmitParts<'a> {
    pub peer: u32,
    pub len: u32,
    pub result: u32,
    pub window: &'a [u8; 1024],
}

/// A head where it lies in memory.
#[derive(Drop)]
pub struct HeadParts<'a> {
    pub front: FrontParts<'a>,
    pub hart: HartParts,
    pub queues: QueuesParts<'a>,
    pub transmit: TransmitParts<'a>,
    pub bell: Option<Bell>,
}

#[tactic(auto, unfolding(avm_model::specs::HeadReading::front_at))]
fn take_front<'a>(view: &mut View<'a>) -> Option<FrontParts<'a>>
    ensures { Takes front_view result view.old view.new (front_at view.old) }
{
    let mut rest = View::new(view.rest());
    let own = rest.take_u8()?;
    let snap = rest.take_u32()?;
    let pages = rest.take_u32()?;
    let peers = take_peers(&mut rest)?;
    *view = rest;
    Some(FrontParts {
        own,
        snap,
        pages,
        peers,
    })
}

fn take_status(view: &mut View<'_>) -> Option<Status>
    ensures { Takes (λ s. s) result view.old view.new (status_at view.old) }
{
    let mut rest = View::new(view.rest());
    let status = match rest.take_u8()? {
        0 => Status::Running,
        1 => Status::Waiting,
        2 => Status::Halted,
        _ => return None,
    };
    *view = rest;
    Some(status)
}

#[tactic(auto, unfolding(avm_model::specs::HeadReading::hart_at))]
fn take_hart(view: &mut View<'_>) -> Option<HartParts>
    ensures { Takes hart_view result view.old view.new (hart_at view.old) }
{
    let mut rest = View::new(view.rest());
    let x = take_registers(&mut rest)?;
    let pc = rest.take_u32()?;
    let count = rest.take_u64()?;
    let status = take_status(&mut rest)?;
    *view = rest;
    Some(HartParts {
        x,
        pc,
        count,
        status,
    })
}

/// A length of one byte, and that many bytes.
fn take_short<'a>(view: &mut View<'a>) -> Option<&'a [u8]>
    ensures { Takes (λ p. p.now) result view.old view.new (sized_at byte_at view.old) }
{
    let mut rest = View::new(view.rest());
    let len = rest.take_u8()?;
    let bytes = rest.take(len as usize)?;
    *view = rest;
    Some(bytes)
}

/// A length of two bytes, and that many bytes.
fn take_long<'a>(view: &mut View<'a>) -> Option<&'a [u8]>
    ensures { Takes (λ p. p.now) result view.old view.new (sized_at (number_at w16) view.old) }
{
    let mut rest = View::new(view.rest());
    let len = take_u16(&mut rest)?;
    let bytes = rest.take(len as usize)?;
    *view = rest;
    Some(bytes)
}

#[tactic(auto, unfolding(avm_model::specs::HeadReading::queues_at))]
fn take_queues<'a>(view: &mut View<'a>) -> Option<QueuesParts<'a>>
    ensures { Takes queues_view result view.old view.new (queues_at view.old) }
{
    let mut rest = View::new(view.rest());
    let latch = rest.take_u32()?;
    let line = take_short(&mut rest)?;
    let console = take_long(&mut rest)?;
    let messages = take_messages(&mut rest)?;
    *view = rest;
    Some(QueuesParts {
        latch,
        line,
        console,
        messages,
    })
}

/// The bytes as a window.
fn as_window(bytes: &[u8]) -> &[u8; 1024]
    requires { length bytes.now ≡ 1024 }
    ensures { result.now ≡ bytes.now }
{
    match bytes.try_into() {
        Ok(window) => window,
        Err(_) => unreachable!(),
    }
}

#[tactic(auto, unfolding(avm_model::specs::HeadReading::transmit_at))]
fn take_transmit<'a>(view: &mut View<'a>) -> Option<TransmitParts<'a>>
    ensures { Takes transmit_view result view.old view.new (transmit_at view.old) }
{
    let mut rest = View::new(view.rest());
    let peer = rest.take_u32()?;
    let len = rest.take_u32()?;
    let result = rest.take_u32()?;
    let window = as_window(rest.take(1024)?);
    *view = rest;
    Some(TransmitParts {
        peer,
        len,
        result,
        window,
    })
}

#[tactic(auto, unfolding(avm_model::specs::HeadReading::version_at))]
fn take_version(view: &mut View<'_>) -> Option<u8>
    ensures { Takes (λ v. v) result view.old view.new (version_at view.old) }
{
    let mut rest = View::new(view.rest());
    let version = rest.take_u8()?;
    if version != 1 && version != 2 {
        return None;
    }
    *view = rest;
    Some(version)
}

#[tactic(auto, unfolding(avm_model::specs::HeadReading::words_at))]
fn take_words(view: &mut View<'_>) -> Option<Bell>
    ensures { Takes (λ b. b) result view.old view.new (words_at view.old) }
{
    let mut rest = View::new(view.rest());
    let vector = rest.take_u32()?;
    let saved = rest.take_u32()?;
    let state = rest.take_u8()?;
    *view = rest;
    Some(Bell {
        vector,
        saved,
        state,
    })
}

/// The bell, which version 1 does not have.
#[tactic(auto, unfolding(avm_model::specs::HeadReading::bell_at))]
fn take_bell(view: &mut View<'_>, version: u8) -> Option<Option<Bell>>
    ensures { Takes (λ b. b) result view.old view.new (bell_at version view.old) }
{
    if version != 2 {
        return Some(None);
    }
    let bell = take_words(view)?;
    Some(Some(bell))
}

#[tactic(auto, unfolding(avm_model::specs::HeadReading::parts_at))]
fn take_parts<'a>(view: &mut View<'a>) -> Option<HeadParts<'a>>
    ensures { Takes head_view result view.old view.new (parts_at view.old) }
{
    let mut rest = View::new(view.rest());
    let version = take_version(&mut rest)?;
    let front = take_front(&mut rest)?;
    let hart = take_hart(&mut rest)?;
    let queues = take_queues(&mut rest)?;
    let transmit = take_transmit(&mut rest)?;
    let bell = take_bell(&mut rest, version)?;
    *view = rest;
    Some(HeadParts {
        front,
        hart,
        queues,
        transmit,
        bell,
    })
}

fn front_fits(front: &FrontParts<'_>) -> bool
    ensures { result ≡ is_front (front_view front.now) }
{
    front.own < 16
        && front.snap >= 1024
        && front.snap <= 1 << 24
        && front.pages > 0
        && 4096 % front.pages == 0
        && rows_fit(front.peers.again(), front.own)
}

fn queues_fit(peers: &Peers<'_>, queues: &QueuesParts<'_>) -> bool
    ensures { result ≡ are_queues peers.now (queues_view queues.now) }
{
    queues.line.len() <= 127
        && !has_line_end(queues.line)
        && queues.console.len() <= 1024
        && queues.messages.len() <= 8
        && messages_fit(queues.messages.again(), peers)
}

fn status_suits(status: Status, queues: &QueuesParts<'_>) -> bool
    ensures { result ≡ suits status (queues_view queues.now) }
{
    match status {
        Status::Running => true,
        Status::Waiting => queues.console.is_empty() && queues.messages.len() == 0,
        Status::Halted => queues.line.is_empty(),
    }
}

fn bell_fits(bell: Option<Bell>) -> bool
    ensures { result ≡ is_bell bell }
{
    match bell {
        None => true,
        Some(bell) => bell.vector % 4 == 0 && bell.saved % 4 == 0 && bell.state <= 2,
    }
}

#[tactic(auto, unfolding(avm_model::specs::Bounds::is_head))]
fn parts_fit(head: &HeadParts<'_>) -> bool
    ensures { result ≡ is_head (head_view head.now) }
{
    front_fits(&head.front)
        && head.hart.pc % 4 == 0
        && head.hart.count < 1 << 62
        && none_sent_past(head.front.peers.again(), head.hart.count)
        && queues_fit(&head.front.peers, &head.queues)
        && status_suits(head.hart.status, &head.queues)
        && head.transmit.result <= 3
        && bell_fits(head.bell)
}

/// The parts of a head, or none where the bytes are none.
#[tactic(auto, unfolding(avm_model::specs::HeadReading::head_of))]
pub fn parts_of(bytes: &[u8]) -> Option<HeadParts<'_>>
    ensures { option_map head_view result ≡ head_of bytes.now }
{
    let mut view = View::new(bytes);
    let parts = take_parts(&mut view)?;
    if !view.rest().is_empty() || !parts_fit(&parts) {
        return None;
    }
    Some(parts)
}

/// Whether the bytes are a head.
pub fn read_head(head: &[u8]) -> bool
    ensures found { IsTrue result → (h : HeadData) × FitsHead h × (is_head h ≡ true) × (head.now ≡ head_bytes h) }
    ensures only { (h : HeadData) → FitsHead h → is_head h ≡ true → head.now ≡ head_bytes h → IsTrue result }
    ensures exact { result ≡ is_some (head_of head.now) }
{
    are_bytes(head);
    parts_of(head).is_some()
}
