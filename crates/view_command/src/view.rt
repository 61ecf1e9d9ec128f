//! The command in its two forms.

ghost use Rattle.std.specs.Prelude.{◌≡◌, ◌≢◌, ◌⊎◌, ℕ, List};
ghost use Rattle.avm_outside.specs.Outside.{Rises};
ghost use Rattle.view_command.specs.Meaning.{ViewMeans};
ghost use Rattle.view_command.specs.Outcomes.{ViewEnds};
ghost use Rattle.view_command.specs.Showing.{ShowsState, ShowsChanges, StateOutOfRange, ChangesOutOfRange};

use crate::End;
use crate::finishing::finish;
use crate::segment::read_segment;
use crate::shown::{StateAsked, show_changes, show_state};
use avm_outside::{Files, Sink};
use std::alloc::Global;

// Reads the segment, and shows a state of its run.
fn state_of<F: Files, S: Sink>(
    alloc: Global,
    files: &mut F,
    segment: &str,
    asked: &StateAsked,
    out: &mut S,
) -> u8
    ensures ends { ViewEnds (ShowsState asked.now) (StateOutOfRange asked.now) (F.file files.old segment.now) (F.faults files.old) (F.faults files.new) (S.faults out.old) (S.faults out.new) (S.written out.old) (S.written out.new) result }
    ensures files { (n : List ℕ) → F.file files.new n ≡ F.file files.old n }
{
    match read_segment(alloc, files, segment) {
        Ok(Some(bytes)) => {
            let ended = show_state(alloc, &bytes, asked, out);
            finish(alloc, ended, out)
        }
        Ok(None) => finish(alloc, Ok(End::RefusedFile), out),
        Err(fault) => finish(alloc, Err(fault), out),
    }
}

// Reads the segment, and shows the changes of a word in its run.
fn changes_of<F: Files, S: Sink>(
    alloc: Global,
    files: &mut F,
    segment: &str,
    address: u32,
    out: &mut S,
) -> u8
    ensures ends { ViewEnds (ShowsChanges address) (ChangesOutOfRange address) (F.file files.old segment.now) (F.faults files.old) (F.faults files.new) (S.faults out.old) (S.faults out.new) (S.written out.old) (S.written out.new) result }
    ensures files { (n : List ℕ) → F.file files.new n ≡ F.file files.old n }
{
    match read_segment(alloc, files, segment) {
        Ok(Some(bytes)) => {
            let ended = show_changes(alloc, &bytes, address, out);
            finish(alloc, ended, out)
        }
        Ok(None) => finish(alloc, Ok(End::RefusedFile), out),
        Err(fault) => finish(alloc, Err(fault), out),
    }
}

/// Shows the guest's state at a count of a segment's run, and words of its RAM. The status: 0 shown; 2 refused by content; 3
/// the segment's file isn't there; 4 a fault of the outside; 5 want of memory.
pub fn view_at<F: Files, S: Sink>(
    alloc: Global,
    files: &mut F,
    segment: &str,
    asked: &StateAsked,
    out: &mut S,
) -> u8
    ensures ends { ViewEnds (ShowsState asked.now) (StateOutOfRange asked.now) (F.file files.old segment.now) (F.faults files.old) (F.faults files.new) (S.faults out.old) (S.faults out.new) (S.written out.old) (S.written out.new) result }
    ensures means { ViewMeans (ShowsState asked.now) (F.file files.old segment.now) (S.written out.old) (S.written out.new) result }
    ensures files { (n : List ℕ) → F.file files.new n ≡ F.file files.old n }
    ensures four { result ≡ 4 → Rises (F.faults files.old) (F.faults files.new) ⊎ Rises (S.faults out.old) (S.faults out.new) }
    ensures not_four { result ≢ 4 → (F.faults files.new ≡ F.faults files.old) × (S.faults out.new ≡ S.faults out.old) }
{
    state_of(alloc, files, segment, asked, out)
}

/// Shows the changes of a word of the RAM in a segment's run. The status is that of `view_at`.
pub fn view_changes<F: Files, S: Sink>(
    alloc: Global,
    files: &mut F,
    segment: &str,
    address: u32,
    out: &mut S,
) -> u8
    ensures ends { ViewEnds (ShowsChanges address) (ChangesOutOfRange address) (F.file files.old segment.now) (F.faults files.old) (F.faults files.new) (S.faults out.old) (S.faults out.new) (S.written out.old) (S.written out.new) result }
    ensures means { ViewMeans (ShowsChanges address) (F.file files.old segment.now) (S.written out.old) (S.written out.new) result }
    ensures files { (n : List ℕ) → F.file files.new n ≡ F.file files.old n }
    ensures four { result ≡ 4 → Rises (F.faults files.old) (F.faults files.new) ⊎ Rises (S.faults out.old) (S.faults out.new) }
    ensures not_four { result ≢ 4 → (F.faults files.new ≡ F.faults files.old) × (S.faults out.new ≡ S.faults out.old) }
{
    changes_of(alloc, files, segment, address, out)
}
