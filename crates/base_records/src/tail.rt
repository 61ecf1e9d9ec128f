//! A record from an entry on.

ghost use Rattle.std.specs.Prelude.{◌≡◌, ◌≤◌, ◌+◌, ◌++◌, length, Some, None, IfSome, MatchOption, List, ℕ};
ghost use Rattle.std.specs.List.{AllByRecursion};
ghost use Rattle.base_model.specs.Base.{from_entry, past_keep as past_keep_of, without_keep};
ghost use Rattle.journal_model.specs.Part.{Part as PartData};
ghost use Rattle.journal_model.specs.Spelling.{parts_bytes};
ghost use Rattle.journal_spelling.specs.Spelled.{FitsPart};
ghost use Rattle.jrnl_part.specs.Views.{part_view};
ghost use Rattle.base_records.specs.Records.{is_entry as is_entry_of};

use avm_num::View;
use jrnl_part::{Part, take_part};

/// A record's items from an entry on: that entry's, and those behind it but for its keep.
#[derive(Clone, Copy)]
pub struct Tail<'a> {
    pub entry: &'a [u8],
    pub behind: &'a [u8],
}

/// The items behind a keep that stands in front.
fn past_keep<'a>(items: &'a [u8]) -> &'a [u8]
    ensures short { length result.now ≤ length items.now }
    ensures past { (ps : List PartData) → AllByRecursion FitsPart ps → items.now ≡ parts_bytes ps → result.now ≡ parts_bytes (past_keep_of ps) }
{
    let mut view = View::new(items);
    match take_part(&mut view) {
        Some(Part::Keep(_)) => view.rest(),
        Some(Part::Entry(_)) => items,
        Some(Part::Seal) => items,
        None => items,
    }
}

/// Whether a part is the entry of this number.
fn is_entry(part: &Part<'_>, number: u64) -> bool
    ensures { result ≡ is_entry_of number (part_view part.now) }
{
    match part {
        Part::Entry(frame) => frame.seq == number,
        Part::Seal => false,
        Part::Keep(_) => false,
    }
}

/// A record's items from the entry of this number on; None where it isn't among them.
pub fn tail_of<'a>(items: &'a [u8], number: u64) -> Option<Tail<'a>>
    ensures short { IfSome result (λ t. length t.entry.now + length t.behind.now ≤ length items.now) }
    ensures tail { (ps : List PartData) → AllByRecursion FitsPart ps → items.now ≡ parts_bytes ps
        → MatchOption result (from_entry number ps ≡ None) (λ t. (qs : List PartData) × (from_entry number ps ≡ Some qs) × (t.entry.now ++ t.behind.now ≡ parts_bytes (without_keep qs))) }
{
    let mut view = View::new(items);
    let mut here = items;
    while let Some(part) = take_part(&mut view) {
        let behind = view.rest();
        if is_entry(&part, number) {
            return Some(Tail {
                entry: &here[..here.len() - behind.len()],
                behind: past_keep(behind),
            });
        }
        here = behind;
    }
    None
}
