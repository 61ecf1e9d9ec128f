ghost use Rattle.std.specs.Prelude.{◌≡◌, ◌≤◌, ◌<◌, ◌++◌, ◌^◌, [], true, false, length, take};
ghost use Rattle.avm_num.specs.Sizes.{IsShort};
ghost use Rattle.seg_file.specs.Places.{part_size, behind, InPages};
ghost use Rattle.seg_file.specs.Filling.{is_live as is_live_lem, HasFilled, part_of as part_of_lem, settled, whole_at, is_end as is_end_lem};

use crate::place::{Place, Stage, after, least_of, longest_of, size_of};
use crate::store::Store;

/// The part that ends with the last byte that a call took.
#[derive(Clone, Copy, Debug, PartialEq, Eq)]
pub enum Part {
    /// None: the whole piece was taken.
    More,
    /// What stands before the pages.
    Head,
    Page(u32),
    Frame,
    /// No segment begins with these bytes.
    Bad,
}

/// How much of a part has come.
#[derive(Clone, Copy)]
pub enum Filled {
    Short,
    Whole,
    Long,
}

/// Whether a segment may begin with what has come.
pub fn is_live(stage: Stage) -> bool
    ensures { result ≡ is_live_lem stage }
{
    match stage {
        Stage::Front => true,
        Stage::Page(_) => true,
        Stage::Entries => true,
        Stage::Bad => false,
    }
}

/// Adds bytes of the piece to the part, as many as it lacks.
pub fn fill(store: &mut Store, stage: Stage, piece: &[u8]) -> (usize, Filled)
    requires live { is_live_lem stage ≡ true }
    requires short { IsShort (part_size stage store.old.part) store.old.part }
    ensures count { result.0 ≤ length piece.now }
    ensures part { store.new.part ≡ store.old.part ++ take result.0 piece.now }
    ensures last { store.new.last ≡ [] }
    ensures filled { HasFilled stage store.new.part result.1 }
    ensures all { result.1 ≡ Filled.Short → result.0 ≡ length piece.now }
    ensures most { length store.new.part < 24590 }
    ensures some { result.1 ≡ Filled.Whole → 0 < result.0 }
{
    let first = store.fill(piece, least_of(stage));
    let Some(size) = size_of(stage, store.part()) else {
        return (first, Filled::Short);
    };
    if size > longest_of(stage) {
        return (first, Filled::Long);
    }
    let more = store.fill(&piece[first..], size);
    if store.part().len() < size {
        return (first + more, Filled::Short);
    }
    (first + more, Filled::Whole)
}

fn part_of(stage: Stage) -> Part
    ensures { result ≡ part_of_lem stage }
{
    match stage {
        Stage::Front => Part::Head,
        Stage::Page(i) => Part::Page(i),
        Stage::Entries => Part::Frame,
        Stage::Bad => Part::Bad,
    }
}

/// Goes on to the next part, where this one is whole and may stand here.
pub fn settle(store: &mut Store, place: &mut Place, filled: Filled) -> Part
    requires snaps { place.old.snaps ≤ 64 }
    requires limit { place.old.done ≤ 2 ^ 26 }
    requires size { length store.old.part < 24590 }
    requires page { InPages place.old.stage place.old.pages }
    ensures answer { result ≡ (settled filled place.old store.old).answer }
    ensures place { place.new ≡ (settled filled place.old store.old).place }
    ensures end { is_end_lem result ≡ true → filled ≡ Filled.Whole }
    ensures store { store.new ≡ (settled filled place.old store.old).held }
{
    match filled {
        Filled::Short => Part::More,
        Filled::Long => {
            place.stage = Stage::Bad;
            Part::Bad
        }
        Filled::Whole => match after(*place, store.part()) {
            Some(next) => {
                let part = part_of(place.stage);
                *place = next;
                store.end();
                part
            }
            None => {
                place.stage = Stage::Bad;
                Part::Bad
            }
        },
    }
}

/// Whether the parts that have come are a segment.
pub fn ends(place: &Place, part: &[u8]) -> bool
    ensures { result ≡ whole_at place.now part.now }
{
    match place.stage {
        Stage::Entries => place.opened && part.is_empty(),
        _ => false,
    }
}
