// The evidence for a verdict, without memory: it borrows from the segment and the authenticators.
ghost use Rattle.std.specs.Prelude.{◌≡◌, ℕ, true, ◌≤◌, ◌+◌, ◌-◌, ◌++◌, ◌^◌, length, take, map, All, List, slice_get};
ghost use Rattle.std.specs.Option.{option_map};
ghost use Rattle.avm_num.specs.Lists.{list_bytes};
ghost use Rattle.avm_model.specs.Entries.{numbered};
ghost use Rattle.avm_model.specs.Frame.{FrameData, FitsFrame, frame_bytes, frames_of};
ghost use Rattle.avm_model.specs.Auth.{AuthData};
ghost use Rattle.avm_model.specs.Evidence as evid;
ghost use Rattle.avm_model.specs.Marks.{hash_in, marked, cover};
ghost use Rattle.std.specs.Option.{option_and_then};
ghost use Rattle.avm_model.specs.Holds.{upto, with_two};
ghost use Rattle.avm_auth.specs.Views.{auth_view};
ghost use Rattle.evid_file.specs.Views.{evidence_view};
ghost use Rattle.auditor.specs.Hashes.{bytes_of};

use crate::covering::cover_of_all;
use avm_auth::{Auth, Auths};
use avm_model::Digest;
use evid_file::Evidence;
use log_chain::next;
use log_entry::Frames;

fn nth_auth<'a>(auths: Auths<'a>, i: u32) -> Option<Auth<'a>>
    ensures { option_map auth_view result ≡ slice_get auths.entry i }
{
    let mut left = i;
    for auth in auths {
        if left == 0 {
            return Some(auth);
        }
        left -= 1;
    }
    None
}

/// The chain's hash at a number.
pub fn hash_at(before: &Digest, frames: &[u8], seq: u64) -> Option<Digest>
    ensures { bytes_of result ≡ hash_in seq before.now.0 (frames_of frames.now) }
{
    let mut hash = *before;
    for frame in Frames::new(frames) {
        hash = next(&hash, frame.seq, frame.kind, frame.content);
        if frame.seq == seq {
            return Some(hash);
        }
    }
    None
}

/// The bytes behind the frame of a number.
fn past<'a>(bytes: &'a [u8], number: u64) -> &'a [u8]
    ensures { (fs : List FrameData) → All FitsFrame fs → bytes.now ≡ list_bytes frame_bytes fs → bytes.now ≡ list_bytes frame_bytes (upto number fs) ++ result.now }
{
    let mut frames = Frames::new(bytes);
    while let Some(frame) = frames.next() {
        if frame.seq == number {
            return frames.rest();
        }
    }
    frames.rest()
}

/// The bytes before those at the end.
fn front_of<'a>(bytes: &'a [u8], behind: &[u8]) -> &'a [u8]
    ensures { result.now ≡ take (length bytes.now - length behind.now) bytes.now }
{
    &bytes[..bytes.len().saturating_sub(behind.len())]
}

/// The bytes up to the frame of a number, where frames end them.
fn cut_after<'a>(whole: &'a [u8], frames: &'a [u8], number: u64) -> &'a [u8]
    ensures { (x : List ℕ) (fs : List FrameData) → All FitsFrame fs → frames.now ≡ list_bytes frame_bytes fs → whole.now ≡ x ++ list_bytes frame_bytes fs → result.now ≡ x ++ list_bytes frame_bytes (upto number fs) }
{
    front_of(whole, past(frames, number))
}

/// Two authenticators of one number and two hashes.
pub fn double<'a>(key: &[u8; 56], auths: Auths<'a>, i: u32, j: u32) -> Option<Evidence<'a>>
    ensures { option_map evidence_view result ≡ with_two (λ a b. evid.double key.now a b) (slice_get auths.entry i) (slice_get auths.entry j) }
{
    let a = nth_auth(auths.again(), i)?;
    let b = nth_auth(auths, j)?;
    Some(Evidence::Double { key: *key, a, b })
}

/// The frames up to the cover's number, the cover and the authenticator that conflicts with it.
pub fn fork<'a>(
    key: &[u8; 56],
    start: u64,
    before: &Digest,
    frames: &'a [u8],
    auths: Auths<'a>,
    i: u32,
    j: u32,
) -> Option<Evidence<'a>>
    ensures { (fs : List FrameData) → All FitsFrame fs → frames.now ≡ list_bytes frame_bytes fs
        → option_map evidence_view result ≡ with_two (λ top other. evid.fork key.now start before.now.0 (list_bytes frame_bytes (upto top.seq fs)) top other) (slice_get auths.entry j) (slice_get auths.entry i) }
{
    let top = nth_auth(auths.again(), j)?;
    let other = nth_auth(auths, i)?;
    Some(Evidence::Fork {
        key: *key,
        start,
        before: *before,
        frames: cut_after(frames, frames, top.seq),
        top,
        other,
    })
}

/// The segment cut after the cover's number, and the cover.
pub fn replay<'a>(
    key: &[u8; 56],
    before: &Digest,
    whole: &'a [u8],
    frames: &'a [u8],
    auths: Auths<'a>,
) -> Option<Evidence<'a>>
    requires { length auths ≤ 2 ^ 24 }
    ensures { (n : ℕ) → numbered n (frames_of frames.now) ≡ true → (x : List ℕ) (fs : List FrameData) → All FitsFrame fs → frames.now ≡ list_bytes frame_bytes fs → whole.now ≡ x ++ list_bytes frame_bytes fs
        → option_map evidence_view result ≡ option_and_then (λ j. option_map (λ top. evid.replay key.now (x ++ list_bytes frame_bytes (upto top.seq fs)) top) (slice_get auths.entry j.0)) (cover (map (marked before.now.0 (frames_of frames.now)) auths.entry)) }
{
    let (j, _) = cover_of_all(before, frames, auths.again())?;
    let top = nth_auth(auths, j)?;
    Some(Evidence::Replay {
        key: *key,
        segment: cut_after(whole, frames, top.seq),
        top,
    })
}
