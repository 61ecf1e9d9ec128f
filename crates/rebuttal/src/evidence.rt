// What of evidence is compared with a journal.
ghost use Rattle.std.specs.Prelude.{◌≡◌, [], List, Some, None, IfSome, IfNone};
ghost use Rattle.avm_auth.specs.Views.{auth_view};
ghost use Rattle.avm_model.specs.Frame.{frames_of};
ghost use Rattle.avm_model.specs.Head.{HeadData};
ghost use Rattle.avm_model.specs.HeadReading.{head_of};
ghost use Rattle.avm_model.specs.Segment.{whole_segment_of};
ghost use Rattle.evid_file.specs.Views.{evidence_view};
ghost use Rattle.journal_model.specs.Journal.{JournalData};
ghost use Rattle.rebut_model.specs.Rebuts.{numbered_texts};
ghost use Rattle.rebuttal.specs.Seen.{entries_beside, first_auth as first_auth_of, second_auth as second_auth_of, TellsEntries};
ghost use Rattle.seg_file.specs.Views.{segment_view};

use avm_auth::Auth;
use avm_hash::Digest;
use evid_file::Evidence;
use seg_file::{Segment, read_segment};
use snap_state::read_head;

/// The segment that the bytes are, where its head is one.
pub fn whole_segment(bytes: &[u8]) -> Option<Segment<'_>>
    ensures found { IfSome result (λ s. (h : HeadData) × (head_of s.head.now ≡ Some h) × (whole_segment_of bytes.now ≡ Some (segment_view s, h))) }
    ensures none { IfNone result (whole_segment_of bytes.now ≡ None) }
{
    let Some(parts) = read_segment(bytes) else {
        return None;
    };
    if read_head(parts.head) {
        Some(parts)
    } else {
        None
    }
}

/// The entries of evidence: the number of the first, the hash before it, and their frames.
#[derive(Clone, Copy)]
pub struct Told<'a> {
    pub start: u64,
    pub before: Digest,
    pub frames: &'a [u8],
}

/// No entries.
fn no_entries<'a>() -> Told<'a>
    ensures { (j : JournalData) → numbered_texts j result.start result.before.0 (frames_of result.frames.now) ≡ [] }
{
    Told {
        start: 0,
        before: Digest([0; 32]),
        frames: &[],
    }
}

/// The entries of a segment.
fn segment_entries(segment: &[u8]) -> Told<'_>
    ensures { (j : JournalData) → numbered_texts j result.start result.before.0 (frames_of result.frames.now) ≡ entries_beside j (whole_segment_of segment.now) }
{
    match whole_segment(segment) {
        Some(parts) => Told {
            start: parts.start,
            before: parts.before,
            frames: parts.frames,
        },
        None => no_entries(),
    }
}

/// The entries of evidence; two authenticators alone have none.
pub fn entries_of<'a>(evidence: &Evidence<'a>) -> Told<'a>
    ensures { TellsEntries (evidence_view evidence.now) result }
{
    match *evidence {
        Evidence::Double { .. } => no_entries(),
        Evidence::Fork {
            start,
            before,
            frames,
            ..
        } => Told {
            start,
            before,
            frames,
        },
        Evidence::Replay { segment, .. } => segment_entries(segment),
    }
}

/// The first authenticator of evidence.
pub fn first_auth<'a>(evidence: &Evidence<'a>) -> Auth<'a>
    ensures { auth_view result ≡ first_auth_of (evidence_view evidence.now) }
{
    match *evidence {
        Evidence::Double { a, .. } => a,
        Evidence::Fork { top, .. } => top,
        Evidence::Replay { top, .. } => top,
    }
}

/// The second authenticator of evidence, or the first where it has one.
pub fn second_auth<'a>(evidence: &Evidence<'a>) -> Auth<'a>
    ensures { auth_view result ≡ second_auth_of (evidence_view evidence.now) }
{
    match *evidence {
        Evidence::Double { b, .. } => b,
        Evidence::Fork { other, .. } => other,
        Evidence::Replay { top, .. } => top,
    }
}
