ghost use Rattle.std.specs.Prelude.{◌≡◌};
ghost use Rattle.avm_num.specs.Bytes.{Takes};
ghost use Rattle.journal_model.specs.Part.{page_at, keep_at, part_at};
ghost use Rattle.jrnl_part.specs.Views.{keep_view, page_view, part_view};

use avm_num::View;
use log_entry::{Frame, read_frame};

/// The state at a SNAP entry: the entry's number, the head, and the bytes of the pages kept, each behind its number.
#[derive(Clone, Copy)]
pub struct Keep<'a> {
    pub seq: u64,
    pub head: &'a [u8],
    pub pages: &'a [u8],
}

/// A page that is kept.
#[derive(Clone, Copy)]
pub struct Page<'a> {
    pub number: u32,
    pub bytes: &'a [u8],
}

/// A part of a record.
#[derive(Clone, Copy)]
pub enum Part<'a> {
    /// An entry.
    Entry(Frame<'a>),
    /// The last entry is signed.
    Seal,
    /// The state at the SNAP entry that stands before it.
    Keep(Keep<'a>),
}

/// The next page of a keep.
#[tactic(auto, unfolding(journal_model::specs::Part::page_at))]
pub fn take_page<'a>(view: &mut View<'a>) -> Option<Page<'a>>
    ensures { Takes page_view result view.old view.new (page_at view.old) }
{
    let mut rest = View::new(view.rest());
    let number = rest.take_u32()?;
    let bytes = rest.take(4096)?;
    *view = rest;
    Some(Page { number, bytes })
}

#[tactic(auto, unfolding(journal_model::specs::Part::keep_at))]
fn take_keep<'a>(view: &mut View<'a>) -> Option<Keep<'a>>
    ensures { Takes keep_view result view.old view.new (keep_at view.old) }
{
    let mut rest = View::new(view.rest());
    let seq = rest.take_u64()?;
    let len = rest.take_u32()?;
    let head = rest.take(len as usize)?;
    let count = rest.take_u32()?;
    let pages = rest.take(4100 * count as usize)?;
    if head.len() > 16384 {
        return None;
    }
    *view = rest;
    Some(Keep { seq, head, pages })
}

/// The next part. None where none stands next, and then the view stays.
#[tactic(auto, unfolding(journal_model::specs::Part::part_at))]
pub fn take_part<'a>(view: &mut View<'a>) -> Option<Part<'a>>
    ensures { Takes part_view result view.old view.new (part_at view.old) }
{
    let mut rest = View::new(view.rest());
    let part = match rest.take_u8()? {
        1 => Part::Entry(read_frame(&mut rest)?),
        2 => Part::Seal,
        3 => Part::Keep(take_keep(&mut rest)?),
        _ => return None,
    };
    *view = rest;
    Some(part)
}
