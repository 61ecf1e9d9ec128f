ghost use Rattle.std.specs.Prelude.{◌≡◌, ◌+◌, ◌<◌, ◌≤◌, ◌==◌, ◌^◌, false, length, replicate};
ghost use Rattle.std.specs.Option.{option_map};
ghost use Rattle.avm_model.specs.Basics.{flag};
ghost use Rattle.avm_model.specs.Entries.{all_zero, begins};
ghost use Rattle.log_entry.specs.Views.{frame_view};
ghost use Rattle.avm_num.specs.Sizes.{number_there};
ghost use Rattle.seg_file.specs.Places.{part_size, least, longest, page_or_entries, behind_front, may_come, behind_frame, behind_stage, behind, InPages};

use crate::entries::{may_begin, with_entry};
use crate::front::read_front;
use avm_model::Digest;
use avm_num::View;
use log_entry::{Frame, read_frame};

/// The longest head, that of version 2.
const HEAD: usize = 11783;

/// The longest content of an entry, and the fields before it.
const FRAME: usize = 24589;

/// Which part is coming.
#[derive(Clone, Copy)]
pub enum Stage {
    Front,
    Page(u32),
    Entries,
    Bad,
}

/// Where a reader stands: which part is coming, what the front said, and what the entries so far leave to those behind
/// them; how many bytes the whole parts have.
#[derive(Clone, Copy)]
pub struct Place {
    pub stage: Stage,
    pub start: u64,
    pub before: Digest,
    pub pages: u32,
    pub next: u64,
    pub snaps: u64,
    pub opened: bool,
    pub done: usize,
}

/// Where a reader begins.
pub fn start_place() -> Place
    ensures { result ≡ record { stage = Stage.Front; start = 0; before = record { 0 = replicate 32 0 }; pages = 0; next = 0; snaps = 0; opened = false; done = 0 } }
{
    Place {
        stage: Stage::Front,
        start: 0,
        before: Digest([0; 32]),
        pages: 0,
        next: 0,
        snaps: 0,
        opened: false,
        done: 0,
    }
}

/// The number of four bytes at a place.
#[tactic(auto, unfolding(avm_num::specs::Sizes::number_there))]
fn number_at(place: usize, part: &[u8]) -> Option<u32>
    ensures { result ≡ number_there place part.now }
{
    if part.len() < place {
        return None;
    }
    let mut view = View::new(&part[place..]);
    view.take_u32()
}

/// The size of a part, once its first bytes say it.
pub fn size_of(stage: Stage, part: &[u8]) -> Option<usize>
    ensures { result ≡ part_size stage part.now }
{
    match stage {
        Stage::Front => Some(49 + number_at(45, part)? as usize),
        Stage::Page(_) => Some(4096),
        Stage::Entries => Some(13 + number_at(9, part)? as usize),
        Stage::Bad => None,
    }
}

/// How many bytes of a part say its size.
pub fn least_of(stage: Stage) -> usize
    ensures { result ≡ least stage }
{
    match stage {
        Stage::Front => 49,
        Stage::Page(_) => 4096,
        Stage::Entries => 13,
        Stage::Bad => 0,
    }
}

pub fn longest_of(stage: Stage) -> usize
    ensures { result ≡ longest stage }
{
    match stage {
        Stage::Front => 49 + HEAD,
        Stage::Page(_) => 4096,
        Stage::Entries => FRAME,
        Stage::Bad => FRAME,
    }
}

fn page_or(i: u32, pages: u32) -> Stage
    ensures { result ≡ page_or_entries i pages }
{
    if i == pages {
        Stage::Entries
    } else {
        Stage::Page(i)
    }
}

/// The place behind a whole front.
pub fn after_front(place: Place, part: &[u8]) -> Option<Place>
    ensures { result ≡ behind_front place part.now }
{
    let counted = read_front(part)?;
    Some(Place {
        stage: page_or(0, counted.pages),
        start: counted.front.start,
        before: counted.front.before,
        pages: counted.pages,
        next: place.next,
        snaps: place.snaps,
        opened: place.opened,
        done: place.done,
    })
}

/// Whether an entry may stand next.
fn is_next(place: &Place, frame: &Frame<'_>) -> bool
    requires { place.now.snaps ≤ 64 }
    ensures { result ≡ may_come place.now (frame_view frame.now) }
{
    if place.opened {
        frame.seq == place.next && frame.kind != 1 && with_entry(place.snaps, frame.kind) <= 64
    } else {
        frame.seq == place.start && may_begin(place.start, &place.before.0, frame.kind)
    }
}

/// The place behind a whole entry.
pub fn after_frame(place: Place, part: &[u8]) -> Option<Place>
    requires { place.snaps ≤ 64 }
    ensures { result ≡ behind_frame place part.now }
{
    let mut view = View::new(part);
    let frame = read_frame(&mut view)?;
    if !is_next(&place, &frame) {
        return None;
    }
    Some(Place {
        stage: place.stage,
        start: place.start,
        before: place.before,
        pages: place.pages,
        next: frame.seq + 1,
        snaps: with_entry(place.snaps, frame.kind),
        opened: true,
        done: place.done,
    })
}

/// The place behind page i.
pub fn after_page(place: Place, i: u32) -> Place
    requires { i < place.pages }
    ensures { result ≡ record { stage = page_or_entries (i + 1) place.pages; start = place.start; before = place.before; pages = place.pages; next = place.next; snaps = place.snaps; opened = place.opened; done = place.done } }
{
    Place {
        stage: page_or(i + 1, place.pages),
        start: place.start,
        before: place.before,
        pages: place.pages,
        next: place.next,
        snaps: place.snaps,
        opened: place.opened,
        done: place.done,
    }
}

fn after_stage(place: Place, part: &[u8]) -> Option<Place>
    requires snaps { place.snaps ≤ 64 }
    requires page { InPages place.stage place.pages }
    ensures { result ≡ behind_stage place.stage place part.now }
{
    match place.stage {
        Stage::Front => after_front(place, part),
        Stage::Page(i) => Some(after_page(place, i)),
        Stage::Entries => after_frame(place, part),
        Stage::Bad => None,
    }
}

/// The place behind a whole part, or none where no segment has it there.
pub fn after(place: Place, part: &[u8]) -> Option<Place>
    requires snaps { place.snaps ≤ 64 }
    requires page { InPages place.stage place.pages }
    requires limit { place.done ≤ 2 ^ 26 }
    requires size { length part.now < 24590 }
    ensures { result ≡ behind place part.now }
{
    let done = place.done + part.len();
    if done > 1 << 26 {
        return None;
    }
    let next = after_stage(place, part)?;
    Some(Place {
        stage: next.stage,
        start: next.start,
        before: next.before,
        pages: next.pages,
        next: next.next,
        snaps: next.snaps,
        opened: next.opened,
        done: next.done + part.len(),
    })
}
