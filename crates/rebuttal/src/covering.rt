// Whether a journal covers evidence.
ghost use Rattle.std.specs.Prelude.{◌≡◌, ◌&&◌, nat_le};
ghost use Rattle.avm_model.specs.Segment.{whole_segment_of};
ghost use Rattle.evid_file.specs.Views.{evidence_view};
ghost use Rattle.journal_model.specs.Fits.{FitsJournal};
ghost use Rattle.journal_model.specs.Journal.{JournalData};
ghost use Rattle.jrnl_store.specs.Kept.{kept};
ghost use Rattle.jrnl_store.specs.Own.{AreKept};
ghost use Rattle.rebut_model.specs.Rebuts.{low_number as low_number_lem, high_number as high_number_lem, start_of, below_mark, covers as covers_lem};

use crate::evidence::whole_segment;
use evid_file::Evidence;
use jrnl_store::Journal;

/// The number of a segment's first entry.
fn start(segment: &[u8]) -> u64
    ensures { result ≡ start_of (whole_segment_of segment.now) }
{
    match whole_segment(segment) {
        Some(parts) => parts.start,
        None => 0,
    }
}

/// The least number of evidence.
fn low_number(evidence: &Evidence<'_>) -> u64
    ensures { result ≡ low_number_lem (evidence_view evidence.now) }
{
    match *evidence {
        Evidence::Double { a, .. } => a.seq,
        Evidence::Fork { start, .. } => start,
        Evidence::Replay { segment, .. } => start(segment),
    }
}

/// The greatest number of evidence.
fn high_number(evidence: &Evidence<'_>) -> u64
    ensures { result ≡ high_number_lem (evidence_view evidence.now) }
{
    match *evidence {
        Evidence::Double { a, .. } => a.seq,
        Evidence::Fork { top, .. } => top.seq,
        Evidence::Replay { top, .. } => top.seq,
    }
}

/// Whether a number is below the last one, where there is a mark.
fn is_below(mark: Option<u64>, last: u64, number: u64) -> bool
    ensures { result ≡ below_mark mark last number }
{
    match mark {
        None => true,
        Some(_) => number < last,
    }
}

/// Whether a journal covers evidence: no number is below its first, and in a retired one each is below its last.
pub fn covers(journal: &Journal, evidence: &Evidence<'_>) -> bool
    ensures { (j : JournalData) → AreKept (kept journal.now) j → FitsJournal j → result ≡ covers_lem j (evidence_view evidence.now) }
{
    let low = journal.first() <= low_number(evidence);
    let high = is_below(journal.retired(), journal.last(), high_number(evidence));
    low && high
}
