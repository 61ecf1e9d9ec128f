// What a disk in memory has come to after its first calls, and images of it.
ghost use Rattle.std.specs.Prelude.{◌≡◌, [], map, cond, drop, slice_index, IfOk};
ghost use Rattle.avm_outside.specs.DiskLog.{upto, read_after, ranges_after, extent_after, settled, is_covered, is_free, image_from};
ghost use Rattle.avm_outside.specs.DiskEvents.{range_view, extent_view};

use crate::disk_event::{DiskEvent, Range, Reach};
use std::alloc::{AllocError, Global};

// The bytes that are read after the first calls.
#[tactic(auto, unfolding(crate::specs::DiskLog::upto))]
pub fn bytes_upto(
    alloc: Global,
    base: &[u8],
    log: &[DiskEvent],
    calls: u64,
) -> Result<Vec<u8>, AllocError>
    ensures { IfOk result (λ bytes. bytes.items ≡ upto read_after calls base.now log.now) }
{
    let mut bytes = Vec::from_slice(alloc, base)?;
    let mut left = log;
    while let [event, others @ ..] = left {
        if event.call() <= calls {
            event.apply(&mut bytes)?;
        }
        left = others;
    }
    Ok(bytes)
}

// The ranges that were written since the last sync.
#[tactic(auto, unfolding(crate::specs::DiskLog::upto))]
pub fn ranges_upto(alloc: Global, log: &[DiskEvent], calls: u64) -> Result<Vec<Range>, AllocError>
    ensures { IfOk result (λ ranges. map range_view ranges.items ≡ upto ranges_after calls [] log.now) }
{
    let mut ranges = Vec::new(alloc);
    let mut left = log;
    while let [event, others @ ..] = left {
        if event.call() <= calls {
            event.loosen(&mut ranges)?;
        }
        left = others;
    }
    Ok(ranges)
}

// The lengths.
#[tactic(auto, unfolding(crate::specs::DiskLog::upto))]
pub fn reach_upto(base: usize, log: &[DiskEvent], calls: u64) -> Reach
    ensures { extent_view result ≡ upto extent_after calls (settled base) log.now }
{
    let mut reach = Reach {
        now: base,
        least: base,
        most: base,
    };
    let mut left = log;
    while let [event, others @ ..] = left {
        if event.call() <= calls {
            reach = event.reach(reach);
        }
        left = others;
    }
    reach
}

// Whether a place lies in one of the ranges.
fn is_written(ranges: &[Range], place: usize) -> bool
    ensures { result ≡ is_covered place (map range_view ranges.now) }
{
    let mut left = ranges;
    while let [range, others @ ..] = left {
        if range.at <= place && place - range.at < range.len {
            return true;
        }
        left = others;
    }
    false
}

// Whether a crash may leave any byte at a place.
fn may_change(ranges: &[Range], least: usize, place: usize) -> bool
    ensures { result ≡ is_free (map range_view ranges.now) least place }
{
    is_written(ranges, place) || least <= place
}

// A byte of an image, and what is left of the choice: a free place takes the choice's next byte.
fn choose<'a>(bytes: &[u8], place: usize, free: bool, choice: &'a [u8]) -> (u8, &'a [u8])
    ensures byte { result.0 ≡ cond free (slice_index choice.now 0) (slice_index bytes.now place) }
    ensures left { result.1.now ≡ cond free (drop 1 choice.now) choice.now }
{
    if free {
        return match choice {
            [first, others @ ..] => (*first, others),
            [] => (0, choice),
        };
    }
    match bytes.get(place) {
        Some(byte) => (*byte, choice),
        None => (0, choice),
    }
}

// The image of a length, its free bytes taken from a choice.
pub fn fill(
    alloc: Global,
    bytes: &[u8],
    ranges: &[Range],
    least: usize,
    len: usize,
    choice: &[u8],
) -> Result<Vec<u8>, AllocError>
    ensures { IfOk result (λ image. image.items ≡ image_from bytes.now (map range_view ranges.now) least 0 len choice.now) }
{
    let mut image = Vec::new(alloc);
    let mut left = choice;
    let mut place = 0;
    while place < len {
        let free = may_change(ranges, least, place);
        let (byte, others) = choose(bytes, place, free, left);
        image.push(byte)?;
        left = others;
        place += 1;
    }
    Ok(image)
}
