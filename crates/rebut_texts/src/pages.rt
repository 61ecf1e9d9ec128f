// Two page trees, compared from the root down.
ghost use Rattle.std.specs.Prelude.{◌≡◌, ℕ, ◌+◌, ◌++◌, ◌∷◌, ◌*◌, ◌<◌, ◌≤◌, ◌^◌, not, length, IfSome, IfOk, option_map};
ghost use Rattle.std.specs.Str.{bytes_eq};
ghost use Rattle.avm_model.specs.Pages.{depth_of, page_of};
ghost use Rattle.rebut_texts.specs.Places.{trees, AreTrees, count_of, differ_at, both_at, places, first_that};
ghost use Rattle.rebut_texts.specs.Found.{found_view};
ghost use Rattle.rebut_texts.specs.Views.{trees_of};

use crate::bytes::Found;
use crate::states::place_text;
use avm_hash::Digest;
use avm_num::NoMemory;
use std::alloc::Global;

/// Two page trees of one size: their nodes, and their pages.
#[derive(Clone, Copy)]
pub struct Pair<'a> {
    pub ours: &'a [Digest],
    pub our_pages: &'a [u8],
    pub theirs: &'a [Digest],
    pub their_pages: &'a [u8],
}

/// Page i of some pages.
fn page(pages: &[u8], i: usize) -> &[u8]
    requires { 4096 * i + 4096 ≤ length pages.now }
    ensures { result.now ≡ page_of pages.now i }
{
    &pages[4096 * i..4096 * i + 4096]
}

/// Whether the texts over two nodes each differ.
fn nodes_differ(
    left: &[u8; 32],
    right: &[u8; 32],
    other_left: &[u8; 32],
    other_right: &[u8; 32],
) -> bool
    ensures { result ≡ not (bytes_eq (1 ∷ (left.now ++ right.now)) (1 ∷ (other_left.now ++ other_right.now))) }
{
    left != other_left || right != other_right
}

/// Whether the texts over a page each differ.
fn pages_differ(ours: &[u8], theirs: &[u8]) -> bool
    ensures { result ≡ not (bytes_eq (0 ∷ ours.now) (0 ∷ theirs.now)) }
{
    ours != theirs
}

/// Whether the texts of a place differ.
fn differs(trees: &Pair<'_>, place: usize) -> bool
    requires trees { AreTrees (trees_of trees.now) }
    requires place { place < length trees.now.ours.now }
    ensures { result ≡ differ_at (trees_of trees.now) place }
{
    let count = trees.ours.len() / 2;
    if place < count {
        nodes_differ(
            &trees.ours[2 * place].0,
            &trees.ours[2 * place + 1].0,
            &trees.theirs[2 * place].0,
            &trees.theirs[2 * place + 1].0,
        )
    } else {
        pages_differ(
            page(trees.our_pages, place - count),
            page(trees.their_pages, place - count),
        )
    }
}

/// The first place whose texts differ, from a place down.
fn first_from(trees: &Pair<'_>, place: usize) -> Option<usize>
    requires trees { AreTrees (trees_of trees.now) }
    requires some { 0 < place }
    requires place { place < length trees.now.ours.now }
    ensures inside { IfSome result (λ p. p < length trees.now.ours.now) }
    ensures value { (d f : ℕ) → place * 2 ^ d ≡ count_of (trees_of trees.now) + f → f + 2 ^ d ≤ count_of (trees_of trees.now) → result ≡ first_that (differ_at (trees_of trees.now)) (places d place) }
{
    if differs(trees, place) {
        return Some(place);
    }
    if place >= trees.ours.len() / 2 {
        return None;
    }
    match first_from(trees, 2 * place) {
        Some(found) => Some(found),
        None => first_from(trees, 2 * place + 1),
    }
}

/// The first place of two page trees whose texts differ, each place before its left part and that before its right part.
pub fn page_walk(
    ours: &[Digest],
    our_pages: &[u8],
    theirs: &[Digest],
    their_pages: &[u8],
) -> Option<u32>
    requires { AreTrees (trees ours.now our_pages.now theirs.now their_pages.now) }
    ensures inside { IfSome result (λ p. p < length ours.now) }
    ensures value { let t = trees ours.now our_pages.now theirs.now their_pages.now in result ≡ first_that (differ_at t) (places (depth_of (count_of t)) 1) }
{
    let both = Pair {
        ours,
        our_pages,
        theirs,
        their_pages,
    };
    match first_from(&both, 1) {
        Some(place) => Some(place as u32),
        None => None,
    }
}

/// The texts of the first place that differ.
pub fn walk_pages(
    alloc: Global,
    ours: &[Digest],
    our_pages: &[u8],
    theirs: &[Digest],
    their_pages: &[u8],
) -> Result<Option<Found>, NoMemory>
    requires { AreTrees (trees ours.now our_pages.now theirs.now their_pages.now) }
    ensures { let t = trees ours.now our_pages.now theirs.now their_pages.now in IfOk result (λ r. option_map found_view r ≡ option_map (both_at t) (first_that (differ_at t) (places (depth_of (count_of t)) 1))) }
{
    match page_walk(ours, our_pages, theirs, their_pages) {
        Some(place) => Ok(Some(Found {
            ours: place_text(alloc, ours, our_pages, place as usize)?,
            theirs: place_text(alloc, theirs, their_pages, place as usize)?,
        })),
        None => Ok(None),
    }
}
