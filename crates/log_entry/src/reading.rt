ghost use Rattle.std.specs.Prelude.{◌≡◌, Some, option_map, IfSome, IfNone};
ghost use Rattle.avm_model.specs.Content.{ContentData, FitsContent, kind_of, content_bytes, content_at, form_of_kind};
ghost use Rattle.log_entry.specs.Views.{content_view};

use crate::frame::Frame;
use crate::kinds::Content;
use crate::packet::{is_ack, is_data};
use crate::parts::{take_count, take_ordinal};
use avm_num::{View, are_bytes};

fn boot<'a>(count: u64, rest: &'a [u8]) -> Option<Content<'a>>
    ensures { option_map content_view result ≡ form_of_kind 1 count rest.now }
{
    if count != 0 || rest.len() != 32 {
        return None;
    }
    let mut root = [0; 32];
    root.copy_from_slice(rest);
    Some(Content::Boot { count, root })
}

fn snap<'a>(count: u64, rest: &'a [u8]) -> Option<Content<'a>>
    ensures { option_map content_view result ≡ form_of_kind 2 count rest.now }
{
    if rest.len() != 32 {
        return None;
    }
    let mut root = [0; 32];
    root.copy_from_slice(rest);
    Some(Content::Snap { count, root })
}

fn conin<'a>(count: u64, rest: &'a [u8]) -> Option<Content<'a>>
    ensures { option_map content_view result ≡ form_of_kind 3 count rest.now }
{
    if rest.is_empty() || rest.len() > 256 {
        return None;
    }
    Some(Content::ConIn { count, bytes: rest })
}

fn clock<'a>(count: u64, rest: &'a [u8]) -> Option<Content<'a>>
    ensures { option_map content_view result ≡ form_of_kind 4 count rest.now }
{
    let mut view = View::new(rest);
    let value = view.take_u64()?;
    if !view.rest().is_empty() {
        return None;
    }
    Some(Content::Clock { count, value })
}

#[tactic(auto, unfolding(avm_model::specs::Packet::recv_behind))]
pub fn recv<'a>(count: u64, rest: &'a [u8]) -> Option<Content<'a>>
    ensures { option_map content_view result ≡ form_of_kind 5 count rest.now }
{
    if !is_data(rest) {
        return None;
    }
    Some(Content::Recv {
        count,
        packet: rest,
    })
}

fn acked<'a>(count: u64, rest: &'a [u8]) -> Option<Content<'a>>
    ensures { option_map content_view result ≡ form_of_kind 6 count rest.now }
{
    if !is_ack(rest) {
        return None;
    }
    Some(Content::Acked {
        count,
        packet: rest,
    })
}

fn out<'a>(count: u64, rest: &'a [u8]) -> Option<Content<'a>>
    ensures { option_map content_view result ≡ form_of_kind 7 count rest.now }
{
    if rest.is_empty() || rest.len() > 128 {
        return None;
    }
    Some(Content::Out { count, bytes: rest })
}

#[tactic(auto, unfolding(avm_model::specs::Packet::send_behind))]
pub fn send<'a>(count: u64, rest: &'a [u8]) -> Option<Content<'a>>
    ensures { option_map content_view result ≡ form_of_kind 8 count rest.now }
{
    let mut view = View::new(rest);
    let peer = view.take_u32()?;
    let number = take_ordinal(&mut view)?;
    let payload = view.rest();
    if payload.len() > 1024 {
        return None;
    }
    Some(Content::Send {
        count,
        peer,
        number,
        payload,
    })
}

fn halt<'a>(count: u64, rest: &'a [u8]) -> Option<Content<'a>>
    ensures { option_map content_view result ≡ form_of_kind 9 count rest.now }
{
    let mut view = View::new(rest);
    let cause = view.take_u32()?;
    let value = view.take_u32()?;
    if !view.rest().is_empty() {
        return None;
    }
    Some(Content::Halt {
        count,
        cause,
        value,
    })
}

/// The content of a kind that stands in the bytes.
#[tactic(auto, unfolding(avm_model::specs::Content::content_at))]
pub fn form<'a>(kind: u8, bytes: &'a [u8]) -> Option<Content<'a>>
    ensures { option_map content_view result ≡ content_at kind bytes.now }
{
    let mut view = View::new(bytes);
    let count = take_count(&mut view)?;
    let rest = view.rest();
    match kind {
        1 => boot(count, rest),
        2 => snap(count, rest),
        3 => conin(count, rest),
        4 => clock(count, rest),
        5 => recv(count, rest),
        6 => acked(count, rest),
        7 => out(count, rest),
        8 => send(count, rest),
        9 => halt(count, rest),
        _ => None,
    }
}

/// What a frame's content says, or none where it hasn't the form of its kind.
pub fn content<'a>(frame: &Frame<'a>) -> Option<Content<'a>>
    ensures found { IfSome result (λ c. FitsContent (content_view c) × (kind_of (content_view c) ≡ frame.now.kind) × (content_bytes (content_view c) ≡ frame.now.content.now)) }
    ensures none { IfNone result ((c : ContentData) → FitsContent c → kind_of c ≡ frame.now.kind → content_bytes c ≡ frame.now.content.now → ⊥) }
    ensures only { (c : ContentData) → FitsContent c → kind_of c ≡ frame.now.kind → content_bytes c ≡ frame.now.content.now → option_map content_view result ≡ Some c }
    ensures exact { option_map content_view result ≡ content_at frame.now.kind frame.now.content.now }
{
    are_bytes(frame.content);
    form(frame.kind, frame.content)
}
