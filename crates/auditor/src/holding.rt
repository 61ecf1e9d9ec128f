// Whether evidence holds.
ghost use Rattle.std.specs.Prelude.{◌≡◌, ◌==◌, ◌&&◌, ◌<◌, ◌^◌, IfOk, MatchBool, is_some};
ghost use Rattle.std.specs.Str.{bytes_eq};
ghost use Rattle.avm_model.specs.Audit.{last_number as last_number_lem, entry_frames};
ghost use Rattle.avm_model.specs.Chain.{top_of};
ghost use Rattle.avm_model.specs.Evidence.{FitsEvidence, key_of};
ghost use Rattle.avm_model.specs.Head.{HeadData};
ghost use Rattle.avm_model.specs.Holds.{ReplayHolds, Holds, Stands};
ghost use Rattle.avm_model.specs.Marks.{verifies};
ghost use Rattle.avm_model.specs.Segment.{SegmentData};
ghost use Rattle.avm_auth.specs.Views.{auth_view};
ghost use Rattle.evid_file.specs.Views.{evidence_view};
ghost use Rattle.seg_file.specs.Views.{segment_view};

use crate::checking::{double_stands, fork_stands, last_number};
use crate::replaying::replayed;
use audit_stream::{is_same, is_valid};
use avm_auth::Auth;
use avm_num::NoMemory;
use evid_file::{Evidence, read_evidence};
use log_chain::chain;
use log_entry::Frames;
use seg_file::{Segment, read_segment};
use snap_state::read_head;
use std::alloc::Global;

// Whether the segment's last entry is that of an authenticator that verifies.
fn is_top(key: &[u8; 56], parts: &Segment<'_>, top: &Auth<'_>) -> bool
    ensures { result ≡ ((last_number_lem 0 (entry_frames (segment_view parts.now)) == top.now.seq) && bytes_eq (top_of parts.now.before.0 (entry_frames (segment_view parts.now))) top.now.hash.0 && verifies key.now (auth_view top.now)) }
{
    last_number(Frames::new(parts.frames)) == top.seq
        && is_same(&chain(&parts.before, Frames::new(parts.frames)), &top.hash)
        && is_valid(key, top)
}

fn is_shown(committed: bool, fault: Option<u64>) -> bool
    ensures { result ≡ (committed && is_some fault) }
{
    committed && fault.is_some()
}

/// Whether a segment and an authenticator show entries that don't replay.
fn replay_stands(
    alloc: Global,
    key: &[u8; 56],
    segment: &[u8],
    top: &Auth<'_>,
) -> Result<bool, NoMemory>
    ensures { IfOk result (λ b. MatchBool b ((s : SegmentData) × (h : HeadData) × ReplayHolds key.now segment.now (auth_view top.now) s h)
        ((s : SegmentData) × (h : HeadData) × ReplayHolds key.now segment.now (auth_view top.now) s h → ⊥)) }
{
    let Some(parts) = read_segment(segment) else {
        return Ok(false);
    };
    if !read_head(parts.head) {
        return Ok(false);
    }
    if !is_top(key, &parts, top) {
        return Ok(false);
    }
    let (committed, fault) = replayed(alloc, &parts)?;
    Ok(is_shown(committed, fault))
}

fn holds(alloc: Global, evidence: &Evidence<'_>) -> Result<bool, NoMemory>
    requires { FitsEvidence (evidence_view evidence.now) }
    ensures { IfOk result (λ b. MatchBool b (Holds (evidence_view evidence.now)) (Holds (evidence_view evidence.now) → ⊥)) }
{
    match *evidence {
        Evidence::Double { key, a, b } => Ok(double_stands(&key, &a, &b)),
        Evidence::Fork {
            key,
            start,
            before,
            frames,
            top,
            other,
        } => Ok(fork_stands(&key, start, &before, frames, &top, &other)),
        Evidence::Replay { key, segment, top } => replay_stands(alloc, &key, segment, &top),
    }
}

// Whether the evidence is of the key.
fn is_of(key: &[u8; 56], evidence: &Evidence<'_>) -> bool
    ensures { result ≡ bytes_eq (key_of (evidence_view evidence.now)) key.now }
{
    match *evidence {
        Evidence::Double { key: own, .. } => own == *key,
        Evidence::Fork { key: own, .. } => own == *key,
        Evidence::Replay { key: own, .. } => own == *key,
    }
}

/// Whether the bytes are evidence of the key, and it holds.
pub fn check(alloc: Global, key: &[u8; 56], evidence: &[u8]) -> Result<bool, NoMemory>
    ensures { IfOk result (λ b. MatchBool b (Stands key.now evidence.now) (Stands key.now evidence.now → ⊥)) }
{
    let Some(parts) = read_evidence(evidence) else {
        return Ok(false);
    };
    if !is_of(key, &parts) {
        return Ok(false);
    }
    holds(alloc, &parts)
}
