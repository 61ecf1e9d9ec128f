ghost use Rattle.std.specs.Prelude.{◌≡◌, ◌<◌, ◌≤◌, ◌^◌, ◌++◌, List, [], ◌∷◌, true, None, IfSome, option_map};
ghost use Rattle.std.proofs.Props.{props};
ghost use Rattle.std.specs.Iterator.{YieldsFirstBy, item_count};
ghost use Rattle.avm_num.specs.Walk.{items_of};
ghost use Rattle.journal_model.specs.Part.{part_at};
ghost use Rattle.journal_model.specs.Standing.{behind, IsLow};
ghost use Rattle.jrnl_part.specs.Views.{part_view, standing_view, bounds_view};
ghost use Rattle.jrnl_store.specs.Kept.{ticket_view};
ghost use Rattle.jrnl_store.specs.Items.{ItemData, are_whole, carried_fit, carriage_fits, carriage_items, item_of as item_of_lem, items_from, item_view};

use crate::ticket::Ticket;
use avm_num::View;
use jrnl_part::{Bounds, Keep, Part, Standing, is_signed, snap_in, take_carried, take_part};
use log_entry::Frame;
use std::marker::Model;

/// An item of a journal, with its ticket where it signs.
#[derive(Clone, Copy)]
pub enum Item<'a> {
    /// A SEND or RECV of an earlier journal.
    Carried(Frame<'a>, Ticket),
    /// An entry; SEND and RECV have tickets.
    Entry(Frame<'a>, Option<Ticket>),
    /// The last entry is signed.
    Seal(Ticket),
    /// The state at the SNAP entry before.
    Keep(Keep<'a>),
}

/// The ticket of the last item that signs.
pub fn last_ticket(stand: &Standing) -> Option<Ticket>
    requires { IfSome (standing_view stand.now).signed (λ s. s.leaf < 2 ^ 15) }
    ensures { option_map ticket_view result ≡ (standing_view stand.now).signed }
{
    match stand.signed {
        Some(item) => Some(Ticket::new(item)),
        None => None,
    }
}

/// A part as an item, by where the journal stands before and behind it.
fn item_of<'a>(before: &Standing, after: &Standing, part: Part<'a>) -> Item<'a>
    requires behind { standing_view after.now ≡ behind (standing_view before.now) (part_view part) }
    requires low { IfSome (standing_view after.now).signed (λ s. s.leaf < 2 ^ 15) }
    ensures { item_view result ≡ item_of_lem (standing_view before.now) (part_view part.entry) }
{
    match part {
        Part::Entry(frame) => {
            if is_signed(frame.kind) {
                Item::Entry(frame, last_ticket(after))
            } else {
                Item::Entry(frame, None)
            }
        }
        Part::Seal => Item::Seal(Ticket::new(before.seal())),
        Part::Keep(keep) => Item::Keep(keep),
    }
}

/// The items of a record, or the carried entries.
#[derive(Drop)]
pub struct Items<'a> {
    carried: View<'a>,
    count: u8,
    view: View<'a>,
    stand: Standing,
    bounds: Bounds,
    snap: Option<u64>,
    ghost next: { stand.next ≤ 2 ^ 62 },
    ghost used: { stand.used ≤ bounds.most },
    ghost signed: { IfSome (standing_view stand).signed (λ s. s.leaf < bounds.most) } by { Prim.hlevel props },
    ghost most: { bounds.most ≤ 2 ^ 15 },
    ghost whole: { are_whole (bounds_view bounds) (standing_view stand) snap view ≡ true },
    ghost fits: { carried_fit bounds.most count carried ≡ true },
}

impl<'a> Model for Items<'a> {
    ghost use Rattle.std.specs.Prelude.{List, ◌++◌};
    ghost use Rattle.avm_num.specs.Walk.{items_of};
    ghost use Rattle.journal_model.specs.Part.{part_at};
    ghost use Rattle.jrnl_part.specs.Views.{standing_view};
    ghost use Rattle.jrnl_store.specs.Items.{ItemData, items_from, carried_list};

    ghost Value = { List ItemData };

    ghost view = { λ i. carried_list i.count i.carried ++ items_from (standing_view i.stand) (items_of part_at i.view) };
}

impl<'a> Items<'a> {
    /// The items of a record.
    pub(crate) fn new(bytes: &'a [u8], bounds: Bounds, stand: Standing) -> Items<'a>
        requires low { IsLow (bounds_view bounds) (standing_view stand) }
        requires most { bounds.most ≤ 2 ^ 15 }
        requires whole { are_whole (bounds_view bounds) (standing_view stand) None bytes.now ≡ true }
        ensures { result ≡ items_from (standing_view stand) (items_of part_at bytes.now) }
    {
        Items {
            carried: View::new(&[]),
            count: 0,
            view: View::new(bytes),
            stand,
            bounds,
            snap: None,
        }
    }

    /// Carried entries, behind their count.
    pub(crate) fn carriage(bytes: &'a [u8], bounds: Bounds, stand: Standing) -> Items<'a>
        requires low { IsLow (bounds_view bounds) (standing_view stand) }
        requires most { bounds.most ≤ 2 ^ 15 }
        requires fits { carriage_fits bounds.most bytes.now ≡ true }
        ensures { result ≡ carriage_items bytes.now }
    {
        let mut carried = View::new(bytes);
        let Some(count) = carried.take_u8() else {
            unreachable!()
        };
        Items {
            carried,
            count,
            view: View::new(&[]),
            stand,
            bounds,
            snap: None,
        }
    }
}

impl<'a> Iterator for Items<'a> {
    type Item = Item<'a>;

    ghost next_gives = { YieldsFirstBy item_view (λ s. s) };

    ghost remaining = { item_count (λ s. s) };

    fn next(&mut self) -> Option<Item<'a>> {
        if self.count > 0 {
            let Some(entry) = take_carried(&mut self.carried) else {
                unreachable!()
            };
            self.count -= 1;
            return Some(Item::Carried(entry.frame, Ticket::new(entry.signed())));
        }
        let Some(part) = take_part(&mut self.view) else {
            return None;
        };
        let before = self.stand;
        self.snap = snap_in(&part);
        self.stand.goes_behind(&part);
        Some(item_of(&before, &self.stand, part))
    }
}
