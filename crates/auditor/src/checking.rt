// Whether two authenticators, or frames and two authenticators, show a fault.
ghost use Rattle.std.specs.Prelude.{◌≡◌, ◌<◌, ◌^◌, List, MatchBool};
ghost use Rattle.avm_model.specs.Frame.{FrameData, frames_of};
ghost use Rattle.avm_model.specs.Audit.{last_number as last_number_lem};
ghost use Rattle.avm_model.specs.Holds.{DoubleHolds, ForkHolds};
ghost use Rattle.avm_auth.specs.Views.{auth_view};
ghost use Rattle.auditor.specs.Hashes.{bytes_of};
ghost use Rattle.auditor.specs.Tests.{run_on, is_hash, double_test, fork_test};

use crate::showing::hash_at;
use audit_stream::{is_same, is_valid};
use avm_auth::Auth;
use avm_model::Digest;
use log_chain::chain;
use log_entry::Frames;

/// Whether these are frames with numbers that run on from a number.
#[tactic(auto, using(log_entry::proofs::FrameLaws::frames_behind_some, log_entry::proofs::FrameLaws::frames_behind_none, seg_file::proofs::Following::frame_seq))]
fn are_frames(start: u64, bytes: &[u8]) -> bool
    requires { start < 2 ^ 62 }
    ensures { result ≡ run_on start bytes.now }
{
    let mut frames = Frames::new(bytes);
    let mut number = start;
    while let Some(frame) = frames.next() {
        if frame.seq != number {
            return false;
        }
        number += 1;
    }
    frames.rest().is_empty()
}

/// The number of the last frame, or 0 where there is none.
pub fn last_number(frames: Frames<'_>) -> u64
    ensures { result ≡ last_number_lem 0 (frames_of frames.entry) }
{
    let mut last = 0;
    for frame in frames {
        last = frame.seq;
    }
    last
}

fn has_hash(there: Option<Digest>, hash: &Digest) -> bool
    ensures { result ≡ is_hash hash.now.0 (bytes_of there) }
{
    match there {
        None => false,
        Some(one) => is_same(&one, hash),
    }
}

fn test_double(key: &[u8; 56], a: &Auth<'_>, b: &Auth<'_>) -> bool
    ensures { result ≡ double_test key.now (auth_view a.now) (auth_view b.now) }
{
    a.seq == b.seq && !is_same(&a.hash, &b.hash) && is_valid(key, a) && is_valid(key, b)
}

/// Whether two authenticators show two hashes of one number.
pub fn double_stands(key: &[u8; 56], a: &Auth<'_>, b: &Auth<'_>) -> bool
    ensures { MatchBool result (DoubleHolds key.now (auth_view a.now) (auth_view b.now)) (DoubleHolds key.now (auth_view a.now) (auth_view b.now) → ⊥) }
{
    test_double(key, a, b)
}

fn test_fork(
    key: &[u8; 56],
    start: u64,
    before: &Digest,
    frames: &[u8],
    top: &Auth<'_>,
    other: &Auth<'_>,
) -> bool
    requires { other.now.seq < 2 ^ 62 }
    ensures { result ≡ fork_test key.now start before.now.0 frames.now (auth_view top.now) (auth_view other.now) }
{
    start <= other.seq
        && other.seq <= top.seq
        && are_frames(start, frames)
        && last_number(Frames::new(frames)) == top.seq
        && is_same(&chain(before, Frames::new(frames)), &top.hash)
        && !has_hash(hash_at(before, frames, other.seq), &other.hash)
        && is_valid(key, top)
        && is_valid(key, other)
}

/// Whether frames and two authenticators show a fork.
pub fn fork_stands(
    key: &[u8; 56],
    start: u64,
    before: &Digest,
    frames: &[u8],
    top: &Auth<'_>,
    other: &Auth<'_>,
) -> bool
    requires { other.now.seq < 2 ^ 62 }
    ensures { MatchBool result ((fs : List FrameData) × ForkHolds key.now start before.now.0 frames.now (auth_view top.now) (auth_view other.now) fs)
        ((fs : List FrameData) × ForkHolds key.now start before.now.0 frames.now (auth_view top.now) (auth_view other.now) fs → ⊥) }
{
    test_fork(key, start, before, frames, top, other)
}
