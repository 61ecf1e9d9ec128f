ghost use Rattle.std.specs.Prelude.{◌≡◌, ◌≢◌, ◌++◌, [], ◌<◌, ◌^◌, ℕ, List, Some, length, OnOk, OnErr};
ghost use Rattle.std.specs.Int.{w32, w64};
ghost use Rattle.avm_num.specs.Lists.{be, one};
ghost use Rattle.avm_model.specs.Evidence.{evidence_magic, evidence_bytes, evidence_at, EvidData, FitsEvidence};
ghost use Rattle.avm_outside.specs.Outside.{Counts};
ghost use Rattle.avm_model.specs.Evidence as evid;
ghost use Rattle.avm_auth.specs.Views.{auth_view};
ghost use Rattle.evid_file.specs.Pieces.{Written, LeavesFront, Leaves};
ghost use Rattle.evid_file.specs.Views.{evidence_view};
ghost use Rattle.evid_file.specs.Short.{IsShort};

use crate::evidence::Evidence;
use crate::pieces::write_all;
use avm_auth::Auth;
use avm_model::Digest;
use avm_outside::{Failed, Files};

// What stands before the body.
#[tactic(auto, unfolding(avm_num::specs::Lists::be, avm_num::specs::Lists::one))]
fn head(key: &[u8; 56], form: u8) -> [u8; 62]
    ensures { result ≡ be w32 evidence_magic ++ (one 1 ++ (key.now ++ one form)) }
{
    let mut head = [0; 62];
    head[..4].copy_from_slice(b"AVME");
    head[4] = 1;
    head[5..61].copy_from_slice(key);
    head[61] = form;
    head
}

// A number, a hash, and the length of what follows.
#[tactic(auto, unfolding(avm_num::specs::Lists::be))]
fn position(seq: u64, hash: &Digest, behind: &[u8]) -> [u8; 44]
    requires { length behind.now < 2 ^ 32 }
    ensures { result ≡ be w64 seq ++ (hash.now.0 ++ be w32 (length behind.now)) }
{
    let mut position = [0; 44];
    position[..8].copy_from_slice(&seq.to_be_bytes());
    position[40..44].copy_from_slice(&(behind.len() as u32).to_be_bytes());
    position[8..40].copy_from_slice(&hash.0);
    position
}

#[tactic(auto, unfolding(avm_num::specs::Lists::be))]
fn length_of(bytes: &[u8]) -> [u8; 4]
    requires { length bytes.now < 2 ^ 32 }
    ensures { result ≡ be w32 (length bytes.now) }
{
    (bytes.len() as u32).to_be_bytes()
}

// Makes the file of a name, with these pieces one after another.
fn write_pieces<'a, F: Files>(
    files: &mut F,
    name: &str,
    head: &'a [u8],
    begin: &'a [u8],
    inner: &'a [u8],
    first: &'a [u8],
    first_sig: &'a [u8],
    second: &'a [u8],
    second_sig: &'a [u8],
) -> Result<(), Failed>
    ensures leaves { Leaves result (head.now ++ (begin.now ++ (inner.now ++ (first.now ++ (first_sig.now ++ (second.now ++ (second_sig.now ++ []))))))) (F.file files.old name.now) (F.file files.new name.now) }
    ensures others { (n : List ℕ) → n ≢ name.now → F.file files.new n ≡ F.file files.old n }
    ensures faults { Counts (F.faults files.old) (F.faults files.new) result }
{
    write_all(
        files,
        name,
        &[head, begin, inner, first, first_sig, second, second_sig],
    )
}

fn write_double<F: Files>(
    files: &mut F,
    name: &str,
    key: &[u8; 56],
    a: &Auth<'_>,
    b: &Auth<'_>,
) -> Result<(), Failed>
    requires one { length a.now.sig.now < 2 ^ 32 }
    requires two { length b.now.sig.now < 2 ^ 32 }
    ensures leaves { Leaves result (evidence_bytes (evid.double key.now (auth_view a.now) (auth_view b.now))) (F.file files.old name.now) (F.file files.new name.now) }
    ensures others { (n : List ℕ) → n ≢ name.now → F.file files.new n ≡ F.file files.old n }
    ensures faults { Counts (F.faults files.old) (F.faults files.new) result }
{
    let head = head(key, 1);
    let first = position(a.seq, &a.hash, a.sig);
    let second = position(b.seq, &b.hash, b.sig);
    write_pieces(files, name, &head, &[], &[], &first, a.sig, &second, b.sig)
}

fn write_fork<F: Files>(
    files: &mut F,
    name: &str,
    key: &[u8; 56],
    start: u64,
    before: &Digest,
    frames: &[u8],
    top: &Auth<'_>,
    other: &Auth<'_>,
) -> Result<(), Failed>
    requires frames { length frames.now < 2 ^ 32 }
    requires one { length top.now.sig.now < 2 ^ 32 }
    requires two { length other.now.sig.now < 2 ^ 32 }
    ensures leaves { Leaves result (evidence_bytes (evid.fork key.now start before.now.0 frames.now (auth_view top.now) (auth_view other.now))) (F.file files.old name.now) (F.file files.new name.now) }
    ensures others { (n : List ℕ) → n ≢ name.now → F.file files.new n ≡ F.file files.old n }
    ensures faults { Counts (F.faults files.old) (F.faults files.new) result }
{
    let head = head(key, 2);
    let begin = position(start, before, frames);
    let first = position(top.seq, &top.hash, top.sig);
    let second = position(other.seq, &other.hash, other.sig);
    write_pieces(
        files, name, &head, &begin, frames, &first, top.sig, &second, other.sig,
    )
}

fn write_replay<F: Files>(
    files: &mut F,
    name: &str,
    key: &[u8; 56],
    segment: &[u8],
    top: &Auth<'_>,
) -> Result<(), Failed>
    requires segment { length segment.now < 2 ^ 32 }
    requires one { length top.now.sig.now < 2 ^ 32 }
    ensures leaves { Leaves result (evidence_bytes (evid.replay key.now segment.now (auth_view top.now))) (F.file files.old name.now) (F.file files.new name.now) }
    ensures others { (n : List ℕ) → n ≢ name.now → F.file files.new n ≡ F.file files.old n }
    ensures faults { Counts (F.faults files.old) (F.faults files.new) result }
{
    let head = head(key, 3);
    let len = length_of(segment);
    let first = position(top.seq, &top.hash, top.sig);
    write_pieces(files, name, &head, &len, segment, &first, top.sig, &[], &[])
}

// Writes evidence, whose lengths fit their fields.
fn write<F: Files>(files: &mut F, name: &str, evidence: &Evidence<'_>) -> Result<(), Failed>
    requires { IsShort (evidence_view evidence.now) }
    ensures leaves { Leaves result (evidence_bytes (evidence_view evidence.now)) (F.file files.old name.now) (F.file files.new name.now) }
    ensures others { (n : List ℕ) → n ≢ name.now → F.file files.new n ≡ F.file files.old n }
    ensures faults { Counts (F.faults files.old) (F.faults files.new) result }
{
    match *evidence {
        Evidence::Double { key, a, b } => write_double(files, name, &key, &a, &b),
        Evidence::Fork {
            key,
            start,
            before,
            frames,
            top,
            other,
        } => write_fork(files, name, &key, start, &before, frames, &top, &other),
        Evidence::Replay { key, segment, top } => write_replay(files, name, &key, segment, &top),
    }
}

/// Makes the file of a name, with the evidence and nothing else. What it writes is read back, where it is evidence of
/// the grammar. Where it fails the file is as it was, or has a front of the evidence.
pub fn write_evidence<F: Files>(
    files: &mut F,
    name: &str,
    evidence: &Evidence<'_>,
) -> Result<(), Failed>
    requires { IsShort (evidence_view evidence.now) }
    ensures written { OnOk result (Written (evidence_bytes (evidence_view evidence.now)) (F.file files.old name.now) (F.file files.new name.now)) }
    ensures failed { OnErr result (LeavesFront (evidence_bytes (evidence_view evidence.now)) (F.file files.old name.now) (F.file files.new name.now)) }
    ensures others { (n : List ℕ) → n ≢ name.now → F.file files.new n ≡ F.file files.old n }
    ensures faults { Counts (F.faults files.old) (F.faults files.new) result }
    ensures again { (e : EvidData) → FitsEvidence e → evidence_at (evidence_bytes e) ≡ Some e }
{
    write(files, name, evidence)
}
