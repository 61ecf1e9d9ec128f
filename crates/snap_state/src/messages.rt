ghost use Rattle.std.specs.Prelude.{◌≡◌, length};
ghost use Rattle.std.specs.Iterator.{YieldsFirstBy, item_count};
ghost use Rattle.std.specs.Int.{w16};
ghost use Rattle.avm_num.specs.Bytes.{Takes, byte_at, number_at};
ghost use Rattle.avm_num.specs.Lists.{list_at, left_of, many_at, sized_at};
ghost use Rattle.avm_model.specs.HeadReading.{message_at};
ghost use Rattle.snap_state.specs.Passed.{Passes};
ghost use Rattle.snap_state.specs.Views.{message_view};

use crate::words::take_u16;
use avm_num::View;
use std::marker::Model;

/// A message that waits.
#[derive(Clone, Copy)]
pub struct Message<'a> {
    pub peer: u8,
    pub payload: &'a [u8],
}

/// A message.
#[tactic(auto, unfolding(avm_model::specs::HeadReading::message_at))]
pub fn take_message<'a>(view: &mut View<'a>) -> Option<Message<'a>>
    ensures { Takes message_view result view.old view.new (message_at view.old) }
{
    let mut rest = View::new(view.rest());
    let peer = rest.take_u8()?;
    let len = take_u16(&mut rest)?;
    let payload = rest.take(len as usize)?;
    *view = rest;
    Some(Message { peer, payload })
}

/// Passes over so many messages.
#[tactic(auto, using(avm_num::proofs::Loops::left_goes, avm_num::proofs::Loops::left_stops, avm_num::proofs::Loops::left_ends))]
fn pass_messages(view: &mut View<'_>, count: u8) -> bool
    ensures { Passes result view.new (left_of (list_at message_at count view.old)) }
{
    for _ in 0..count {
        let Some(_) = take_message(view) else {
            return false;
        };
    }
    true
}

/// The messages that stand one after another, seen as their list.
#[derive(Drop)]
pub struct Messages<'a> {
    view: View<'a>,
    left: u8,
}

impl<'a> Model for Messages<'a> {
    ghost use Rattle.std.specs.Prelude.{List, IsSome};
    ghost use Rattle.avm_model.specs.Device.{MessageState};
    ghost use Rattle.avm_num.specs.Lists.{list_at, read_of};
    ghost use Rattle.avm_model.specs.HeadReading.{message_at};

    ghost Value = { List MessageState };

    ghost view = { λ p. read_of (list_at message_at p.left p.view) };

    ghost invariant = { λ p. IsSome (list_at message_at p.left p.view) };
}

/// A count, and that many messages.
#[tactic(auto, using(avm_num::proofs::Fields::taken, avm_num::proofs::Fields::none_taken))]
pub fn take_messages<'a>(view: &mut View<'a>) -> Option<Messages<'a>>
    ensures { Takes (λ p. p) result view.old view.new (many_at byte_at message_at view.old) }
{
    let mut rest = View::new(view.rest());
    let left = rest.take_u8()?;
    let rows = View::new(rest.rest());
    if !pass_messages(&mut rest, left) {
        return None;
    }
    *view = rest;
    Some(Messages { view: rows, left })
}

impl<'a> Messages<'a> {
    /// How many they are.
    pub fn len(&self) -> u8
        ensures { result ≡ length self.now }
    {
        self.left
    }

    /// The same messages.
    pub fn again(&self) -> Messages<'a>
        ensures { result ≡ self.now }
    {
        Messages {
            view: View::new(self.view.rest()),
            left: self.left,
        }
    }
}

impl<'a> Iterator for Messages<'a> {
    type Item = Message<'a>;

    ghost next_gives = { YieldsFirstBy message_view (λ s. s) };

    ghost remaining = { item_count (λ s. s) };

    fn next(&mut self) -> Option<Message<'a>> {
        if self.left == 0 {
            return None;
        }
        self.left -= 1;
        take_message(&mut self.view)
    }
}
