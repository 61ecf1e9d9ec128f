//! The cheat: an OUT with its count raised by 1, and its last entry signed at a leaf that the store doesn't use.

ghost use Rattle.std.specs.Prelude.{◌≡◌, ◌≤◌, ◌++◌, length, IfOk, OnOk};
ghost use Rattle.std.specs.Int.{w64};
ghost use Rattle.avm_num.specs.Lists.{be};
ghost use Rattle.avm_model.specs.Audit.{last_number};
ghost use Rattle.avm_model.specs.Auth.{auth_bytes, signed_text_of};
ghost use Rattle.avm_model.specs.Chain.{next_hash};
ghost use Rattle.avm_model.specs.Frame.{frame_bytes, frames_of};
ghost use Rattle.avm_model.specs.Keys.{sig_of};
ghost use Rattle.avm_model.specs.Segment.{segment_bytes, segment_front_bytes};
ghost use Rattle.log_entry.specs.Views.{frame_view};
ghost use Rattle.sample_lines.specs.Judging.{cheat as cheat_of, cheat_auth, has_out as has_out_in, raised as raised_frame};
ghost use Rattle.seg_file.specs.Views.{segment_view};
ghost use Rattle.sample_judge.specs.Cheating.{Drafts, IsDraftOf};

use avm_auth::{put_auth, signed_text};
use avm_hash::Digest;
use avm_num::{NoMemory, Room};
use lms_tree::LmsKey;
use log_chain::next;
use log_entry::{Content, Frame, Frames, content, put_frame};
use seg_file::{Segment, put_front};
use std::alloc::Global;

/// The last leaf of the key.
const LEAF: u32 = 1023;

/// The longest signature, and an authenticator with it.
const LONGEST_SIGNATURE: usize = 9_324;

const LONGEST_AUTH: usize = 9_368;

/// A segment, and the authenticator of its last entry.
#[derive(Drop)]
pub struct Cheat {
    pub segment: Vec<u8>,
    pub auth: Vec<u8>,
}

/// Entries as they are written: their bytes, the chain's hash behind them, and the number of the last.
#[derive(Drop)]
pub struct Draft {
    pub bytes: Vec<u8>,
    pub hash: Digest,
    pub last: u64,
}

/// A copy of bytes.
fn copied(alloc: Global, bytes: &[u8]) -> Result<Vec<u8>, NoMemory>
    ensures { IfOk result (λ v. v.items ≡ bytes.now) }
{
    match Vec::from_slice(alloc, bytes) {
        Ok(bytes) => Ok(bytes),
        Err(_) => Err(NoMemory),
    }
}

/// Adds bytes.
fn extend(all: &mut Vec<u8>, bytes: &[u8]) -> Result<(), NoMemory>
    ensures { OnOk result (all.new.items ≡ all.old.items ++ bytes.now) }
{
    match all.extend_from_slice(bytes) {
        Ok(()) => Ok(()),
        Err(_) => Err(NoMemory),
    }
}

/// The content of an OUT with another count.
#[tactic(auto, unfolding(avm_num::specs::Lists::be))]
fn counted(alloc: Global, count: u64, bytes: &[u8]) -> Result<Vec<u8>, NoMemory>
    ensures { IfOk result (λ v. v.items ≡ be w64 count ++ bytes.now) }
{
    let mut all = copied(alloc, &count.to_be_bytes())?;
    extend(&mut all, bytes)?;
    Ok(all)
}

/// The content of an entry, with its count raised by 1 where it is an OUT.
fn raised(alloc: Global, frame: &Frame<'_>) -> Result<Vec<u8>, NoMemory>
    ensures { IfOk result (λ v. record (frame_view frame.now) { content = v.items } ≡ raised_frame (frame_view frame.now)) }
{
    match content(frame) {
        Some(Content::Out { count, bytes }) => {
            let Some(next) = count.checked_add(1) else {
                return Err(NoMemory);
            };
            counted(alloc, next, bytes)
        }
        _ => copied(alloc, frame.content),
    }
}

/// The bytes of an entry.
#[tactic(auto, unfolding(avm_num::specs::Room::left))]
fn framed(alloc: Global, seq: u64, kind: u8, content: &[u8]) -> Result<Room, NoMemory>
    ensures { IfOk result (λ r. r.bytes ≡ frame_bytes (record { seq = seq; kind = kind; content = content.now })) }
{
    if content.len() > 1 << 31 {
        return Err(NoMemory);
    }
    let mut frame = Room::new(alloc, 13 + content.len())?;
    put_frame(&mut frame, seq, kind, content);
    Ok(frame)
}

impl Draft {
    /// Adds an entry.
    fn add(&mut self, alloc: Global, seq: u64, kind: u8, content: &[u8]) -> Result<(), NoMemory>
        ensures { OnOk result (Drafts self.old (record { seq = seq; kind = kind; content = content.now }) self.new) }
    {
        let frame = framed(alloc, seq, kind, content)?;
        extend(&mut self.bytes, frame.bytes())?;
        self.hash = next(&self.hash, seq, kind, content);
        self.last = seq;
        Ok(())
    }
}

/// Whether one of the entries is an OUT.
pub fn has_out(frames: Frames<'_>) -> bool
    ensures { result ≡ has_out_in (frames_of frames.entry) }
{
    for frame in frames {
        if frame.kind == 7 {
            return true;
        }
    }
    false
}

/// The entries behind a hash, the first OUT raised.
fn cheated(alloc: Global, before: &Digest, frames: Frames<'_>) -> Result<Draft, NoMemory>
    ensures { IfOk result (IsDraftOf before.now.0 (frames_of frames.entry)) }
{
    let mut draft = Draft {
        bytes: Vec::new(alloc),
        hash: *before,
        last: 0,
    };
    let mut found = false;
    for frame in frames {
        if frame.kind == 7 && !found {
            found = true;
            let content = raised(alloc, &frame)?;
            draft.add(alloc, frame.seq, frame.kind, &content)?;
        } else {
            draft.add(alloc, frame.seq, frame.kind, frame.content)?;
        }
    }
    Ok(draft)
}

/// The segment with other entries.
#[tactic(auto, unfolding(avm_model::specs::Segment::segment_bytes, avm_num::specs::Room::left))]
fn with_frames(alloc: Global, parts: &Segment<'_>, frames: &[u8]) -> Result<Vec<u8>, NoMemory>
    ensures { IfOk result (λ v. v.items ≡ segment_bytes (record (segment_view parts.now) { frames = frames.now })) }
{
    if parts.head.len() > 1 << 31 {
        return Err(NoMemory);
    }
    let mut front = Room::new(alloc, 49 + parts.head.len())?;
    put_front(&mut front, parts.start, &parts.before, parts.head);
    let mut bytes = copied(alloc, front.bytes())?;
    extend(&mut bytes, parts.pages)?;
    extend(&mut bytes, frames)?;
    Ok(bytes)
}

/// The signature of a number and a hash at the last leaf.
#[tactic(auto, unfolding(avm_num::specs::Room::left))]
fn signed(alloc: Global, key: &LmsKey, seq: u64, hash: &Digest) -> Result<Room, NoMemory>
    requires { key.now.lms ≡ 6 }
    ensures bytes { IfOk result (λ r. r.bytes ≡ sig_of key.now 1023 (signed_text_of seq hash.now.0)) }
    ensures short { IfOk result (λ r. length r.bytes ≤ 9324) }
{
    let mut signature = Room::new(alloc, LONGEST_SIGNATURE)?;
    key.signature_len();
    let text = signed_text(seq, hash);
    key.sign(LEAF, &text, &mut signature);
    Ok(signature)
}

/// The authenticator of a number and a hash.
#[tactic(auto, unfolding(avm_num::specs::Room::left))]
fn authenticator(alloc: Global, key: &LmsKey, seq: u64, hash: &Digest) -> Result<Vec<u8>, NoMemory>
    requires { key.now.lms ≡ 6 }
    ensures { IfOk result (λ v. v.items ≡ auth_bytes (record { seq = seq; hash = hash.now.0; sig = sig_of key.now 1023 (signed_text_of seq hash.now.0) })) }
{
    let signature = signed(alloc, key, seq, hash)?;
    let mut auth = Room::new(alloc, LONGEST_AUTH)?;
    put_auth(&mut auth, seq, hash, signature.bytes());
    copied(alloc, auth.bytes())
}

/// The cheat of a segment.
pub fn make_cheat(alloc: Global, key: &LmsKey, parts: &Segment<'_>) -> Result<Cheat, NoMemory>
    requires { key.now.lms ≡ 6 }
    ensures segment { IfOk result (λ c. c.segment.items ≡ segment_bytes (cheat_of (segment_view parts.now))) }
    ensures auth { IfOk result (λ c. c.auth.items ≡ auth_bytes (cheat_auth key.now (segment_view parts.now))) }
{
    let draft = cheated(alloc, &parts.before, Frames::new(parts.frames))?;
    let segment = with_frames(alloc, parts, &draft.bytes)?;
    let auth = authenticator(alloc, key, draft.last, &draft.hash)?;
    Ok(Cheat { segment, auth })
}
