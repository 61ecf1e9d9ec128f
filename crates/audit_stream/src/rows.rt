//! The rows of the verdict's table, over authenticators and over their marks.

ghost use Rattle.std.specs.Prelude.{◌≡◌, ◌≤◌, ◌+◌, ◌^◌, length, drop, map, not};
ghost use Rattle.avm_auth.specs.Views.{auth_view};
ghost use Rattle.avm_model.specs.Marks.{verifies, cover, better};
ghost use Rattle.avm_model.specs.Basics.{first_at};
ghost use Rattle.avm_model.specs.Verdict.{first_pair, doubles, conflicts, unmatched_mark};
ghost use Rattle.audit_stream.specs.Pairs.{are_double};

use crate::valid::{is_same, is_valid};
use avm_auth::{Auth, Auths};
use avm_model::{Mark, Marked};

/// The first that doesn't verify.
pub fn bad_auth(key: &[u8; 56], auths: Auths<'_>) -> Option<u32>
    requires { length auths ≤ 2 ^ 24 }
    ensures { result ≡ first_at (λ a. not (verifies key.now a)) 0 auths.entry }
{
    let mut i = 0;
    for auth in auths {
        if !is_valid(key, &auth) {
            return Some(i);
        }
        i += 1;
    }
    None
}

/// The first from a place on that has the number and another hash.
fn other_hash(auths: &[Auth<'_>], from: usize, auth: &Auth<'_>) -> Option<u32>
    requires from { from ≤ length auths.now }
    requires bound { length auths.now ≤ 2 ^ 24 }
    ensures { result ≡ first_at (are_double auth.now) from (drop from auths.now) }
{
    for i in from..auths.len() {
        if auth.seq == auths[i].seq && !is_same(&auth.hash, &auths[i].hash) {
            return Some(i as u32);
        }
    }
    None
}

fn first_double(auths: &[Auth<'_>]) -> Option<(u32, u32)>
    requires { length auths.now ≤ 2 ^ 24 }
    ensures { result ≡ first_pair are_double 0 auths.now }
{
    for i in 0..auths.len() {
        if let Some(j) = other_hash(auths, i + 1, &auths[i]) {
            return Some((i as u32, j));
        }
    }
    None
}

/// The first pair of one number and two hashes.
#[tactic(auto, using(crate::proofs::Maps::first_pair_map))]
pub fn double(auths: &[Auth<'_>]) -> Option<(u32, u32)>
    requires { length auths.now ≤ 2 ^ 24 }
    ensures { result ≡ first_pair doubles 0 (map auth_view auths.now) }
{
    first_double(auths)
}

pub fn better_of(best: Option<(u32, u64)>, i: u32, one: Marked) -> Option<(u32, u64)>
    ensures { result ≡ better i one best }
{
    match (one.mark, best) {
        (Mark::Same, None) => Some((i, one.seq)),
        (Mark::Same, Some((_, top))) if top < one.seq => Some((i, one.seq)),
        _ => best,
    }
}

/// The first of the greatest number that matches, with its number.
pub fn cover_of(marks: &[Marked]) -> Option<(u32, u64)>
    requires { length marks.now ≤ 2 ^ 24 }
    ensures { result ≡ cover marks.now }
{
    let mut best = None;
    for i in 0..marks.len() {
        best = better_of(best, i as u32, marks[i]);
    }
    best
}

/// The first of a number up to the top's that doesn't match.
pub fn conflict(marks: &[Marked], top: u64) -> Option<u32>
    requires { length marks.now ≤ 2 ^ 24 }
    ensures { result ≡ first_at (conflicts top) 0 marks.now }
{
    for i in 0..marks.len() {
        if matches!(marks[i].mark, Mark::Other) && marks[i].seq <= top {
            return Some(i as u32);
        }
    }
    None
}

/// The first that doesn't match.
pub fn unmatched(marks: &[Marked]) -> Option<u32>
    requires { length marks.now ≤ 2 ^ 24 }
    ensures { result ≡ first_at unmatched_mark 0 marks.now }
{
    for i in 0..marks.len() {
        if !matches!(marks[i].mark, Mark::Same) {
            return Some(i as u32);
        }
    }
    None
}
