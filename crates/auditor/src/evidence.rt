// The evidence for a verdict.
ghost use Rattle.std.specs.Prelude.{◌≡◌, ◌^◌, ◌≤◌, ◌≢◌, List, ℕ, All, length, true, false, None, Some, is_some, IfSome};
ghost use Rattle.std.specs.Option.{option_map};
ghost use Rattle.avm_num.specs.Lists.{list_bytes};
ghost use Rattle.avm_model.specs.Entries.{numbered};
ghost use Rattle.avm_model.specs.Frame.{FitsFrame, frame_bytes};
ghost use Rattle.avm_model.specs.Head.{HeadData};
ghost use Rattle.avm_model.specs.Segment.{segment_bytes};
ghost use Rattle.avm_model.specs.Evidence.{FitsEvidence, evidence_bytes};
ghost use Rattle.avm_model.specs.Audit.{Judged, IsVerdict, judged_of, entry_frames};
ghost use Rattle.avm_model.specs.Holds.{Stands, evidence, has_evidence};
ghost use Rattle.evid_file.specs.Short.{IsShort};
ghost use Rattle.evid_file.specs.Views.{evidence_view};
ghost use Rattle.seg_file.specs.Views.{segment_view};

use crate::showing::{double, fork, replay};
use avm_auth::{Auths, read_auths};
use avm_model::Verdict;
use avm_num::are_bytes;
use evid_file::Evidence;
use seg_file::{Segment, read_segment};

#[tactic(auto, unfolding(avm_model::specs::Holds::evidence))]
fn shown<'a>(
    key: &[u8; 56],
    whole: &'a [u8],
    segment: &Segment<'a>,
    auths: Auths<'a>,
    verdict: &Verdict,
) -> Option<Evidence<'a>>
    requires { length auths ≤ 2 ^ 24 }
    ensures only { has_evidence verdict.now ≡ false → result ≡ None }
    ensures value { (h : HeadData) → numbered segment.now.start (entry_frames (segment_view segment.now)) ≡ true → All FitsFrame (entry_frames (segment_view segment.now)) → segment.now.frames.now ≡ list_bytes frame_bytes (entry_frames (segment_view segment.now)) → whole.now ≡ segment_bytes (segment_view segment.now)
        → option_map evidence_view result ≡ evidence key.now (record { segment = segment_view segment.now; head = h; auths = auths.entry }) verdict.now }
{
    match *verdict {
        Verdict::Double(i, j) => double(key, auths, i, j),
        Verdict::Fork(i, j) => fork(
            key,
            segment.start,
            &segment.before,
            segment.frames,
            auths,
            i,
            j,
        ),
        Verdict::Replay(_) => replay(key, &segment.before, whole, segment.frames, auths),
        Verdict::Malformed => None,
        Verdict::BadAuth(_) => None,
        Verdict::Uncommitted => None,
        Verdict::Uncovered(_) => None,
        Verdict::Unmatched(_) => None,
        Verdict::Accepted { .. } => None,
    }
}

fn found<'a>(
    key: &[u8; 56],
    segment: &'a [u8],
    auths: &'a [u8],
    verdict: &Verdict,
) -> Option<Evidence<'a>>
    ensures only { has_evidence verdict.now ≡ false → result ≡ None }
    ensures value { (d : Judged) → judged_of segment.now auths.now ≡ Some d → option_map evidence_view result ≡ evidence key.now d verdict.now }
{
    are_bytes(segment);
    if auths.len() > 1 << 24 {
        return None;
    }
    let list = read_auths(auths)?;
    let parts = read_segment(segment)?;
    shown(key, segment, &parts, list, verdict)
}

/// What shows the fault of a verdict to others; None exactly for a verdict that has no evidence. The verdict is that on
/// these bytes under the key. What is given holds: its bytes are evidence of the key that `check` accepts.
pub fn evidence_of<'a>(
    key: &[u8; 56],
    segment: &'a [u8],
    auths: &'a [u8],
    verdict: &Verdict,
) -> Option<Evidence<'a>>
    requires { IsVerdict key.now segment.now auths.now verdict.now }
    ensures value { (d : Judged) → judged_of segment.now auths.now ≡ Some d → option_map evidence_view result ≡ evidence key.now d verdict.now }
    ensures some { is_some result ≡ has_evidence verdict.now }
    ensures fits { IfSome result (λ e. FitsEvidence (evidence_view e)) }
    ensures short { IfSome result (λ e. IsShort (evidence_view e)) }
    ensures stands { IfSome result (λ e. Stands key.now (evidence_bytes (evidence_view e))) }
{
    are_bytes(segment);
    are_bytes(auths);
    found(key, segment, auths, verdict)
}
