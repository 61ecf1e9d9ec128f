//! Authenticators against a chain of which more comes, without memory.

ghost use Rattle.std.specs.Prelude.{◌≡◌, ◌+◌, ◌≤◌, ◌<◌, ◌^◌, ◌-◌, ◌++◌, ◌∷◌, [], ℕ, List, length, map, drop, take, IfOk};
ghost use Rattle.avm_model.specs.Frame.{FrameData};
ghost use Rattle.avm_auth.specs.Views.{auth_view};
ghost use Rattle.log_entry.specs.Views.{frame_view};

use crate::marking::{mark_all, number_above, outside};
use avm_auth::Auth;
use avm_model::{Digest, Marked};
use avm_num::NoMemory;
use log_chain::next;
use log_entry::Frame;
use std::alloc::Global;
use std::marker::Model;

/// Authenticators against the chain of the entries so far.
#[derive(Drop)]
pub struct Matching<'a> {
    auths: Vec<Auth<'a>>,
    marks: Vec<Marked>,
    wanted: u64,
    hash: Digest,
}

impl<'a> Model for Matching<'a> {
    ghost use Rattle.audit_stream.specs.Matching.{Matched, matched_by, IsMatching};

    ghost Value = { Matched };

    ghost view = { matched_by };

    ghost invariant = { IsMatching };
}

impl<'a> Matching<'a> {
    ghost use Rattle.audit_stream.specs.Matching.{Matches};

    /// No entry has come. It alone takes memory.
    pub fn new(
        alloc: Global,
        auths: Vec<Auth<'a>>,
        before: &Digest,
    ) -> Result<Matching<'a>, NoMemory>
        requires { length auths.items ≤ 2 ^ 24 }
        ensures auths { IfOk result (λ m. m.auths ≡ map auth_view auths.entry.items) }
        ensures none { IfOk result (λ m. (start : ℕ) → Matches m start before.now.0 []) }
    {
        let marks = outside(alloc, auths.as_slice())?;
        Ok(Matching {
            auths,
            marks,
            wanted: 0,
            hash: *before,
        })
    }

    /// One entry more.
    pub fn entry(&mut self, frame: &Frame<'_>)
        ensures auths { self.new.auths ≡ self.old.auths }
        ensures goes { (start : ℕ) (before : List ℕ) (fs : List FrameData) → frame.now.seq ≡ start + length fs → Matches self.old start before fs
            → Matches self.new start before (fs ++ frame_view frame.now ∷ []) }
    {
        self.hash = next(&self.hash, frame.seq, frame.kind, frame.content);
        if self.wanted <= frame.seq {
            mark_all(
                self.marks.as_mut_slice(),
                self.auths.as_slice(),
                frame.seq,
                &self.hash,
            );
            self.wanted = number_above(self.marks.as_slice(), frame.seq);
        }
    }

    /// Each authenticator's number, and how its hash is to the chain's there.
    pub fn marks(&self) -> &[Marked]
        ensures value { result.now ≡ self.now.marks }
        ensures few { length self.now.marks ≤ 2 ^ 24 }
    {
        self.marks.as_slice()
    }
}
