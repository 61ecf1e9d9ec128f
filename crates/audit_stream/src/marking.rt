//! Marks of authenticators, one after another.

ghost use Rattle.std.specs.Prelude.{◌≡◌, ◌^◌, ◌-◌, length, map, IfOk};
ghost use Rattle.avm_model.specs.Marks.{marked};
ghost use Rattle.avm_auth.specs.Views.{auth_view};
ghost use Rattle.avm_model.specs.declared.judged.Marked.{Marked};
ghost use Rattle.audit_stream.specs.Marking.{remark_one, remarked, outside_of};
ghost use Rattle.audit_stream.specs.Numbers.{least_above};

use crate::valid::is_same;
use avm_auth::Auth;
use avm_model::{Digest, Mark, Marked};
use avm_num::NoMemory;
use std::alloc::Global;

/// A mark for each authenticator, before any entry.
pub fn outside(alloc: Global, auths: &[Auth<'_>]) -> Result<Vec<Marked>, NoMemory>
    ensures { IfOk result (λ v. v.items ≡ map outside_of auths.now) }
{
    let mut marks = Vec::new(alloc);
    for auth in auths {
        let mark = Marked {
            seq: auth.seq,
            mark: Mark::Outside,
        };
        if let Err(_) = marks.push(mark) {
            return Err(NoMemory);
        }
    }
    Ok(marks)
}

fn remark(auth: &Auth<'_>, old: Marked, seq: u64, hash: &Digest) -> Marked
    ensures { result ≡ remark_one seq hash.now.0 auth.now old }
{
    if seq == auth.seq && matches!(old.mark, Mark::Outside) {
        let mark = if is_same(&auth.hash, hash) {
            Mark::Same
        } else {
            Mark::Other
        };
        Marked { seq: old.seq, mark }
    } else {
        old
    }
}

/// Marks the authenticators of a number.
pub fn mark_all(marks: &mut [Marked], auths: &[Auth<'_>], seq: u64, hash: &Digest)
    requires { length marks.old ≡ length auths.now }
    ensures { marks.new ≡ remarked seq hash.now.0 auths.now marks.old }
{
    for i in 0..marks.len() {
        marks[i] = remark(&auths[i], marks[i], seq, hash);
    }
}

/// The least number above a number, or the greatest of its type where there is none.
pub fn number_above(marks: &[Marked], seq: u64) -> u64
    ensures { result ≡ least_above (λ (m : Marked). m.seq) seq (2 ^ 64 - 1) marks.now }
{
    let mut least = u64::MAX;
    for mark in marks {
        if seq < mark.seq && mark.seq < least {
            least = mark.seq;
        }
    }
    least
}
