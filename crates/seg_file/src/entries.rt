ghost use Rattle.std.specs.Prelude.{◌≡◌, ◌==◌, ◌+◌, ◌&&◌, ◌<◌, ◌≤◌, ◌^◌};
ghost use Rattle.avm_model.specs.Frame.{frame_at, frames_of};
ghost use Rattle.avm_num.specs.Walk.{behind_of, is_nil};
ghost use Rattle.avm_model.specs.Basics.{flag};
ghost use Rattle.avm_model.specs.Entries.{all_zero, begins, follow, are_entries};

use log_entry::Frames;

fn is_zero(bytes: &[u8]) -> bool
    ensures { result ≡ all_zero bytes.now }
{
    for byte in bytes {
        if *byte != 0 {
            return false;
        }
    }
    true
}

/// Whether an entry of this kind may be the first.
pub fn may_begin(start: u64, before: &[u8], kind: u8) -> bool
    ensures { result ≡ begins start before.now kind }
{
    if start == 1 {
        kind == 1 && is_zero(before)
    } else {
        kind == 2
    }
}

/// So many SNAP entries, and this entry.
pub fn with_entry(snaps: u64, kind: u8) -> u64
    requires { snaps ≤ 64 }
    ensures { result ≡ snaps + flag (kind == 2) }
{
    if kind == 2 { snaps + 1 } else { snaps }
}

#[tactic(auto, using(crate::proofs::Following::ends))]
/// Whether the entries that are left follow a number, behind so many SNAP entries.
fn rest_follows(frames: Frames<'_>, start: u64, before: u64) -> bool
    requires start { start < 2 ^ 62 }
    requires few { before ≤ 64 }
    ensures { result ≡ (follow (start + 1) before (frames_of frames.entry) && is_nil (behind_of frame_at frames.entry)) }
{
    let mut frames = frames;
    let mut number = start;
    let mut snaps = before;
    while let Some(frame) = frames.next() {
        if frame.seq != number + 1 || frame.kind == 1 {
            return false;
        }
        let more = with_entry(snaps, frame.kind);
        if more > 64 {
            return false;
        }
        snaps = more;
        number += 1;
    }
    frames.rest().is_empty()
}

/// Whether these are the entries of a segment.
#[tactic(auto, unfolding(avm_model::specs::Entries::are_entries), using(log_entry::proofs::FrameLaws::frames_behind_some, crate::proofs::Following::frame_seq))]
pub fn entries_fit(start: u64, before: &[u8], bytes: &[u8]) -> bool
    ensures { result ≡ are_entries start before.now bytes.now }
{
    let mut frames = Frames::new(bytes);
    let Some(first) = frames.next() else {
        return false;
    };
    if first.seq != start || !may_begin(start, before, first.kind) {
        return false;
    }
    rest_follows(frames, start, with_entry(0, first.kind))
}
