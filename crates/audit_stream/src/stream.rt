//! A segment that comes in pieces.

ghost use Rattle.std.specs.Prelude.{◌≡◌, ◌≤◌, ◌<◌, ◌++◌, ℕ, List, true, false, length, nat_le, take, IfOk};
ghost use Rattle.avm_model.specs.Audit.{IsVerdict, IsAcceptance};
ghost use Rattle.audit_stream.specs.Heard.{Heard};
ghost use Rattle.audit_stream.specs.Parts.{is_head as is_head_lem};

use crate::opening::subject_of;
use crate::subject::Subject;
use crate::verdicts::verdict_of;
use avm_model::Verdict;
use avm_num::{NoMemory, are_bytes};
use seg_file::{Part, SegReader};
use std::alloc::Global;
use std::marker::Model;

/// How many bytes a front has behind which more may come.
const FRONT: usize = 16384;

/// An audit of a segment that comes in pieces.
#[derive(Drop)]
pub struct AuditStream<'a> {
    reader: SegReader,
    begun: bool,
    subject: Option<Subject<'a>>,
}

impl<'a> Model for AuditStream<'a> {
    ghost use Rattle.audit_stream.specs.Streaming.{Streaming, streaming_by};

    ghost Value = { Streaming };

    ghost view = { streaming_by };
}

fn is_head(part: Part) -> bool
    ensures { result ≡ is_head_lem part }
{
    match part {
        Part::Head => true,
        _ => false,
    }
}

impl<'a> AuditStream<'a> {
    /// The audit of a segment that begins with these bytes, under a public key. All memory is taken here: RAM, tree, one
    /// frame, and an authenticator's place and mark.
    pub fn open(
        alloc: Global,
        key: &[u8; 56],
        front: &[u8],
        auths: &'a [u8],
    ) -> Result<AuditStream<'a>, NoMemory>
        ensures begun { IfOk result (λ a. a.begun ≡ nat_le 16384 (length front.now)) }
        ensures heard { IfOk result (λ a. Heard a key.now auths.now front.now) }
    {
        are_bytes(front);
        let mut reader = SegReader::new(alloc)?;
        let (count, part) = reader.take(front);
        if !is_head(part) {
            return Ok(AuditStream {
                reader,
                begun: front.len() >= FRONT,
                subject: None,
            });
        }
        let subject = subject_of(
            alloc,
            key,
            reader.start(),
            &reader.before(),
            reader.head(),
            reader.pages(),
            auths,
        )?;
        let mut stream = AuditStream {
            reader,
            begun: true,
            subject,
        };
        stream.feed(&front[count..]);
        stream.begun = front.len() >= FRONT;
        Ok(stream)
    }

    /// Whether a piece may come: the front had at least 16,384 bytes.
    pub fn takes_more(&self) -> bool
        ensures { result ≡ self.now.begun }
    {
        self.begun
    }

    /// Takes bytes from the front of the piece, up to the end of a part: how many.
    fn step(&mut self, piece: &[u8]) -> usize
        ensures count { result ≤ length piece.now }
        ensures some { 0 < length piece.now → 0 < result }
        ensures begun { self.new.begun ≡ self.old.begun }
        ensures heard { self.old.begun ≡ true → (key auths bytes : List ℕ) → Heard self.old key auths bytes → Heard self.new key auths (bytes ++ take result piece.now) }
    {
        are_bytes(piece);
        let Some(subject) = &mut self.subject else {
            return piece.len();
        };
        let (count, part) = self.reader.take(piece);
        match part {
            Part::More => count,
            Part::Page(i) => {
                subject.page(i, self.reader.page());
                count
            }
            Part::Frame => {
                subject.entry(&self.reader.frame());
                count
            }
            Part::Bad => {
                self.subject = None;
                piece.len()
            }
            // A head has come before.
            Part::Head => {
                self.subject = None;
                piece.len()
            }
        }
    }

    /// The next piece, of any size; it takes no memory. A front of fewer than 16,384 bytes has nothing behind it.
    pub fn feed(&mut self, piece: &[u8])
        requires { self.old.begun ≡ false → length piece.now ≡ 0 }
        ensures begun { self.new.begun ≡ self.old.begun }
        ensures heard { (key auths bytes : List ℕ) → Heard self.old key auths bytes → Heard self.new key auths (bytes ++ piece.now) }
    {
        let mut at = 0;
        while at < piece.len() {
            at += self.step(&piece[at..]);
        }
    }

    fn verdict(&self) -> Verdict
        ensures { (key auths bytes : List ℕ) → Heard self.now key auths bytes → IsVerdict key bytes auths result }
    {
        let Some(subject) = &self.subject else {
            return Verdict::Malformed;
        };
        if !self.reader.whole() {
            return Verdict::Malformed;
        }
        verdict_of(
            subject.bad,
            subject.double,
            subject.first,
            subject.last,
            subject.course.committed,
            subject.course.fault,
            subject.matching.marks(),
        )
    }

    /// The verdict on all bytes that were fed, however they were cut. It takes no memory, and the stream stays.
    pub fn finish(&self) -> Verdict
        ensures value { (key auths bytes : List ℕ) → Heard self.now key auths bytes → IsVerdict key bytes auths result }
        ensures accepted { (key auths bytes : List ℕ) → Heard self.now key auths bytes → IsAcceptance key bytes auths result }
    {
        self.verdict()
    }
}
