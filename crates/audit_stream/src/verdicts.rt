//! The rows of the verdict's table, one after another.

ghost use Rattle.std.specs.Prelude.{◌≡◌, ◌≤◌, ◌^◌, ◌∷◌, [], length};
ghost use Rattle.avm_model.specs.Marks.{cover, cover_number};
ghost use Rattle.std.specs.Option.{option_map};
ghost use Rattle.avm_model.specs.Verdict.{first_some, fork_by, replay_by, unmatched_by};
ghost use Rattle.avm_model.specs.declared.judged.Verdict.TheVariants.{Uncovered, Accepted};
ghost use Rattle.audit_stream.specs.Rows.{verdict_by};

use crate::rows::{conflict, cover_of, unmatched};
use avm_model::{Marked, Verdict};

/// The rows from Fork on.
fn later(first: u64, last: u64, fault: Option<u64>, marks: &[Marked]) -> Verdict
    requires { length marks.now ≤ 2 ^ 24 }
    ensures { result ≡ first_some (fork_by marks.now (cover marks.now) ∷ replay_by fault (cover marks.now) ∷ option_map Uncovered fault ∷ unmatched_by marks.now ∷ []) (Accepted first last (cover_number (cover marks.now))) }
{
    let top = cover_of(marks);
    if let Some((j, number)) = top {
        if let Some(i) = conflict(marks, number) {
            return Verdict::Fork(i, j);
        }
    }
    if let Some(n) = fault {
        return match top {
            Some((_, number)) if n <= number => Verdict::Replay(n),
            _ => Verdict::Uncovered(n),
        };
    }
    if let Some(k) = unmatched(marks) {
        return Verdict::Unmatched(k);
    }
    let cover = match top {
        Some((_, number)) => number,
        None => 0,
    };
    Verdict::Accepted { first, last, cover }
}

/// The first row that applies.
pub fn verdict_of(
    bad: Option<u32>,
    double: Option<(u32, u32)>,
    first: u64,
    last: u64,
    committed: bool,
    fault: Option<u64>,
    marks: &[Marked],
) -> Verdict
    requires { length marks.now ≤ 2 ^ 24 }
    ensures { result ≡ verdict_by bad double first last committed fault marks.now }
{
    if let Some(k) = bad {
        return Verdict::BadAuth(k);
    }
    if let Some((i, j)) = double {
        return Verdict::Double(i, j);
    }
    if !committed {
        return Verdict::Uncommitted;
    }
    later(first, last, fault, marks)
}
