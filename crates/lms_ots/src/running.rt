ghost use Rattle.std.specs.Prelude.{◌≡◌, ◌≤◌, ◌<◌, ◌+◌, ℕ, slice_index};
ghost use Rattle.lms_ots.specs.Chains.{text_at, HasGone, HaveGone};

use crate::buffer::walk;
use crate::lanes::walk_eight;

// The chains of a leaf go eight at a time, the longest first; where one ends, the next takes its lane. When fewer than eight are
// left, each goes on by itself: eight lanes cost as much as some five single hashes, also where most of them are idle.

/// A text for each chain that a leaf can have.
pub type Texts = [[u8; 55]; 265];

/// A step for each of these chains.
pub type Places = [usize; 265];

/// The texts of eight chains.
fn texts_of(texts: &Texts, lanes: &[usize; 8]) -> [[u8; 55]; 8]
    requires { (k : ℕ) → k < 8 → slice_index lanes.now k < 265 }
    ensures { (k : ℕ) → k < 8 → text_at result k ≡ text_at texts.now (slice_index lanes.now k) }
{
    let mut group = [[0u8; 55]; 8];
    for k in 0..8 {
        group[k] = texts[lanes[k]];
    }
    group
}

/// The steps at which eight chains stand.
fn places_of(at: &Places, lanes: &[usize; 8]) -> [usize; 8]
    requires { (k : ℕ) → k < 8 → slice_index lanes.now k < 265 }
    ensures { (k : ℕ) → k < 8 → slice_index result k ≡ slice_index at.now (slice_index lanes.now k) }
{
    let mut places = [0; 8];
    for k in 0..8 {
        places[k] = at[lanes[k]];
    }
    places
}

/// Takes eight chains as many steps further.
fn push(texts: &mut Texts, at: &mut Places, to: &Places, lanes: &[usize; 8], steps: usize)
    requires lanes { (k : ℕ) → k < 8 → slice_index lanes.now k < 265 }
    requires ends { (i : ℕ) → i < 265 → slice_index to.now i ≤ 256 }
    requires within { (i : ℕ) → i < 265 → slice_index at.old i ≤ slice_index to.now i }
    requires steps { (k : ℕ) → k < 8 → slice_index at.old (slice_index lanes.now k) + steps ≤ slice_index to.now (slice_index lanes.now k) }
    ensures { HaveGone texts.old at.old to.now texts.new at.new }
{
    let from = places_of(at, lanes);
    let mut group = texts_of(texts, lanes);
    walk_eight(&mut group, &from, steps);
    for k in 0..8 {
        texts[lanes[k]] = group[k];
        at[lanes[k]] = from[k] + steps;
    }
}

/// The steps that each of eight chains has left.
fn least(at: &Places, to: &Places, lanes: &[usize; 8]) -> usize
    requires lanes { (k : ℕ) → k < 8 → slice_index lanes.now k < 265 }
    requires within { (i : ℕ) → i < 265 → slice_index at.now i ≤ slice_index to.now i }
    ensures { (k : ℕ) → k < 8 → slice_index at.now (slice_index lanes.now k) + result ≤ slice_index to.now (slice_index lanes.now k) }
{
    let mut steps = 256;
    for k in 0..8 {
        steps = (to[lanes[k]] - at[lanes[k]]).min(steps);
    }
    steps
}

/// Puts chains in order.
fn sort(order: &mut [u32]) {
    order.sort_unstable();
}

/// The first p chains, those with the most steps first. What is said of them doesn't depend on their order.
fn longest_first(from: &Places, to: &Places, p: usize) -> [u32; 265]
    requires few { p ≤ 265 }
    requires ends { (i : ℕ) → i < 265 → slice_index to.now i ≤ 256 }
    requires within { (i : ℕ) → i < 265 → slice_index from.now i ≤ slice_index to.now i }
{
    let mut order = [0u32; 265];
    for i in 0..p {
        order[i] = ((256 - (to[i] - from[i])) * 512 + i) as u32;
    }
    sort(&mut order[..p]);
    order
}

/// The chain at a place of the order.
fn chain_at(order: &[u32; 265], place: usize) -> usize
    requires { place < 265 }
    ensures { result < 265 }
{
    (order[place] % 512).min(264) as usize
}

/// The first eight chains of the order.
fn first_eight(order: &[u32; 265]) -> [usize; 8]
    ensures { (k : ℕ) → k < 8 → slice_index result k < 265 }
{
    let mut lanes = [0; 8];
    for k in 0..8 {
        lanes[k] = chain_at(order, k);
    }
    lanes
}

/// Gives the lanes of chains at their ends to the next chains of the order, and tells which of them come then.
fn refill(
    lanes: &mut [usize; 8],
    at: &Places,
    to: &Places,
    order: &[u32; 265],
    next: usize,
    p: usize,
) -> usize
    requires few { p ≤ 265 }
    requires lanes { (k : ℕ) → k < 8 → slice_index lanes.old k < 265 }
    ensures { (k : ℕ) → k < 8 → slice_index lanes.new k < 265 }
{
    let mut next = next;
    for k in 0..8 {
        if next < p && at[lanes[k]] == to[lanes[k]] {
            lanes[k] = chain_at(order, next);
            next += 1;
        }
    }
    next
}

/// Takes the first p chains on in eight lanes, until a lane has none.
fn run_lanes(texts: &mut Texts, at: &mut Places, to: &Places, p: usize)
    requires few { p ≤ 265 }
    requires ends { (i : ℕ) → i < 265 → slice_index to.now i ≤ 256 }
    requires within { (i : ℕ) → i < 265 → slice_index at.old i ≤ slice_index to.now i }
    ensures { HaveGone texts.old at.old to.now texts.new at.new }
{
    let order = longest_first(at, to, p);
    let mut lanes = first_eight(&order);
    let mut next = 8;
    for _turn in 0..p {
        let steps = least(at, to, &lanes);
        if steps == 0 {
            return;
        }
        push(texts, at, to, &lanes, steps);
        next = refill(&mut lanes, at, to, &order, next, p);
    }
}

/// Takes each of the first p chains from its step in `from` to its step in `to`.
pub fn run(texts: &mut Texts, from: &Places, to: &Places, p: usize)
    requires few { p ≤ 265 }
    requires ends { (i : ℕ) → i < 265 → slice_index to.now i ≤ 256 }
    requires within { (i : ℕ) → i < 265 → slice_index from.now i ≤ slice_index to.now i }
    ensures { (i : ℕ) → i < p → HasGone (text_at texts.old i) (slice_index from.now i) (slice_index to.now i) (text_at texts.new i) }
{
    let mut at = *from;
    run_lanes(texts, &mut at, to, p);
    for i in 0..p {
        walk(&mut texts[i], at[i], to[i]);
    }
}
