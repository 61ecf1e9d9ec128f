// The cover without memory: one pass of the chain, and one over the authenticators for each number of theirs that it meets.
ghost use Rattle.std.specs.Prelude.{◌≡◌, ◌≤◌, ◌^◌, ◌-◌, ℕ, true, length, map};
ghost use Rattle.std.specs.Option.{option_map};
ghost use Rattle.avm_model.specs.Basics.{first_at, or_else};
ghost use Rattle.avm_model.specs.Entries.{numbered};
ghost use Rattle.avm_model.specs.Frame.{frames_of};
ghost use Rattle.avm_model.specs.Marks.{marked, cover};
ghost use Rattle.avm_model.specs.Auth.{AuthData};
ghost use Rattle.audit_stream.specs.Numbers.{least_above};
ghost use Rattle.auditor.specs.Covering.{is_at};

use audit_stream::is_same;
use avm_auth::Auths;
use avm_model::Digest;
use log_chain::next;
use log_entry::Frames;

/// The first of a number and a hash.
fn match_at(auths: Auths<'_>, seq: u64, hash: &Digest) -> Option<u32>
    requires { length auths ≤ 2 ^ 24 }
    ensures { result ≡ first_at (is_at seq hash.now.0) 0 auths.entry }
{
    let mut i = 0;
    for auth in auths {
        if seq == auth.seq && is_same(&auth.hash, hash) {
            return Some(i);
        }
        i += 1;
    }
    None
}

/// The least number above a number, or the greatest of its type where there is none.
fn number_above(auths: Auths<'_>, seq: u64) -> u64
    ensures { result ≡ least_above (λ (a : AuthData). a.seq) seq (2 ^ 64 - 1) auths.entry }
{
    let mut least = u64::MAX;
    for auth in auths {
        if seq < auth.seq && auth.seq < least {
            least = auth.seq;
        }
    }
    least
}

/// The first of a number and a hash, or the best so far.
fn better_at(
    best: Option<(u32, u64)>,
    auths: Auths<'_>,
    seq: u64,
    hash: &Digest,
) -> Option<(u32, u64)>
    requires { length auths ≤ 2 ^ 24 }
    ensures { result ≡ or_else (option_map (λ i. (i, seq)) (first_at (is_at seq hash.now.0) 0 auths.entry)) best }
{
    match match_at(auths, seq, hash) {
        Some(i) => Some((i, seq)),
        None => best,
    }
}

/// The cover, where the entries' numbers run on.
pub fn cover_of_all(before: &Digest, frames: &[u8], auths: Auths<'_>) -> Option<(u32, u64)>
    requires { length auths ≤ 2 ^ 24 }
    ensures { (n : ℕ) → numbered n (frames_of frames.now) ≡ true → result ≡ cover (map (marked before.now.0 (frames_of frames.now)) auths.entry) }
{
    let mut best = None;
    let mut hash = *before;
    let mut wanted = 0;
    for frame in Frames::new(frames) {
        hash = next(&hash, frame.seq, frame.kind, frame.content);
        if wanted <= frame.seq {
            best = better_at(best, auths.again(), frame.seq, &hash);
            wanted = number_above(auths.again(), frame.seq);
        }
    }
    best
}
