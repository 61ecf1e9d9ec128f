ghost use Rattle.std.specs.Prelude.{◌≡◌, ◌≤◌, ◌<◌, ◌+◌, ◌^◌, option_map, Option, None, ℕ, IfSome, length};
ghost use Rattle.avm_num.specs.Walk.{items_of};
ghost use Rattle.log_entry.specs.Views.{frame_view};
ghost use Rattle.journal_model.specs.Part.{page_at, is_signed_kind, entry};
ghost use Rattle.journal_model.specs.Journal.{pages_ascend, may_stand, snap_of};
ghost use Rattle.journal_model.specs.Standing.{behind, fits_part, snap_behind, IsLow, seal_signed, continued as continued_lem};
ghost use Rattle.jrnl_part.specs.Views.{part_view, standing_view, signed_view, bounds_view};

use crate::part::{Part, take_page, take_part};
use avm_hash::Digest;
use avm_num::View;
use log_chain::next;
use log_entry::Frame;

/// What a journal sets for its parts: the number of its first entry, its page count, and how many leaves its key has.
#[derive(Clone, Copy)]
pub struct Bounds {
    pub first: u64,
    pub pages: u32,
    pub most: u64,
}

/// A signing item: its leaf, its number and hash, and the hash before; for a seal those of the last entry.
#[derive(Clone, Copy)]
pub struct Signed {
    pub leaf: u64,
    pub seq: u64,
    pub hash: Digest,
    pub before: Digest,
}

/// Where a journal stands behind its parts: the number of the next entry, the hash of the last one and the hash before
/// it, how many leaves are used, whether the last item is a seal, and the last signing item.
#[derive(Clone, Copy)]
pub struct Standing {
    pub next: u64,
    pub hash: Digest,
    pub prior: Digest,
    pub used: u64,
    pub sealed: bool,
    pub signed: Option<Signed>,
}

/// Whether entries of a kind sign.
pub fn is_signed(kind: u8) -> bool
    ensures { result ≡ is_signed_kind kind }
{
    kind == 8 || kind == 5
}

fn begins(first: u64, seq: u64, kind: u8) -> bool
    ensures { result ≡ may_stand first seq kind }
{
    if seq != first {
        return kind != 1;
    }
    if first == 1 { kind == 1 } else { kind == 2 }
}

fn snap_number(frame: &Frame<'_>) -> Option<u64>
    ensures { result ≡ snap_of (record { seq = frame.now.seq; kind = frame.now.kind; content = frame.now.content.now }) }
{
    if frame.kind == 2 {
        Some(frame.seq)
    } else {
        None
    }
}

/// Whether page numbers ascend below a bound, in so many bytes.
fn ascends(pages: &[u8], most: u32) -> bool
    ensures { result ≡ pages_ascend 0 most (items_of page_at pages.now) }
{
    let mut view = View::new(pages);
    let mut low = 0;
    while let Some(page) = take_page(&mut view) {
        if page.number < low || page.number >= most {
            return false;
        }
        low = page.number + 1;
    }
    true
}

impl Standing {
    /// Whether a part fits here, behind a SNAP entry of this number or none.
    fn takes(&self, bounds: &Bounds, snap: Option<u64>, part: &Part<'_>) -> bool
        requires { self.now.used < 2 ^ 63 }
        ensures { result ≡ fits_part (bounds_view bounds.now) (standing_view self.now) snap (part_view part.now) }
    {
        match part {
            Part::Entry(frame) => {
                let more = if is_signed(frame.kind) { 1 } else { 0 };
                frame.seq == self.next
                    && begins(bounds.first, self.next, frame.kind)
                    && self.used + more <= bounds.most
            }
            Part::Seal => bounds.first < self.next && self.used + 1 <= bounds.most,
            Part::Keep(keep) => snap == Some(keep.seq) && ascends(keep.pages, bounds.pages),
        }
    }

    /// What a seal signs here.
    pub fn seal(&self) -> Signed
        ensures { signed_view result ≡ seal_signed (standing_view self.now) }
    {
        Signed {
            leaf: self.used,
            seq: self.next.saturating_sub(1),
            hash: self.hash,
            before: self.prior,
        }
    }

    /// Goes behind a part.
    pub fn goes_behind(&mut self, part: &Part<'_>)
        requires next { self.old.next < 2 ^ 63 }
        requires used { self.old.used < 2 ^ 63 }
        ensures { standing_view self.new ≡ behind (standing_view self.old) (part_view part.now) }
    {
        match part {
            Part::Entry(frame) => self.enters(frame),
            Part::Seal => {
                self.signed = Some(self.seal());
                self.used += 1;
                self.sealed = true;
            }
            Part::Keep(_) => {}
        }
    }

    /// Goes behind an entry.
    fn enters(&mut self, frame: &Frame<'_>)
        requires next { self.old.next < 2 ^ 63 }
        requires used { self.old.used < 2 ^ 63 }
        ensures { standing_view self.new ≡ behind (standing_view self.old) (entry (frame_view frame.now)) }
    {
        let hash = next(&self.hash, frame.seq, frame.kind, frame.content);
        if is_signed(frame.kind) {
            self.signed = Some(Signed {
                leaf: self.used,
                seq: frame.seq,
                hash,
                before: self.hash,
            });
            self.used += 1;
        }
        self.prior = self.hash;
        self.hash = hash;
        self.next += 1;
        self.sealed = false;
    }
}

/// The number of a SNAP entry.
pub fn snap_in(part: &Part<'_>) -> Option<u64>
    ensures { result ≡ snap_behind (part_view part.now) }
{
    match part {
        Part::Entry(frame) => snap_number(frame),
        Part::Seal => None,
        Part::Keep(_) => None,
    }
}

/// Where a journal stands behind the parts that these bytes are; None where they are no parts, or don't fit.
pub fn continued(bounds: &Bounds, standing: &Standing, items: &[u8]) -> Option<Standing>
    requires low { IsLow (bounds_view bounds.now) (standing_view standing.now) }
    requires most { bounds.now.most < 2 ^ 62 }
    ensures value { option_map standing_view result ≡ continued_lem (bounds_view bounds.now) (standing_view standing.now) items.now }
    ensures low { IfSome result (λ s. IsLow (bounds_view bounds.now) (standing_view s)) }
    ensures next { IfSome result (λ s. (standing.now.next ≤ s.next) × (s.next ≤ standing.now.next + length items.now)) }
{
    let mut view = View::new(items);
    let mut stand = *standing;
    let mut snap = None;
    while let Some(part) = take_part(&mut view) {
        if !stand.takes(bounds, snap, &part) {
            return None;
        }
        snap = snap_in(&part);
        stand.goes_behind(&part);
    }
    if view.rest().is_empty() {
        Some(stand)
    } else {
        None
    }
}
