//! Where a base begins.

ghost use Rattle.std.specs.Prelude.{◌≡◌};
ghost use Rattle.base_build.specs.Judging.{Taken, can_begin as can_begin_of, is_other as is_other_of};

use base_survey::Place;
use guest_machine::Machine;
use store_move::RetainFault;
use stretch_replay::Stretched;

/// The machine behind an entry, and where that stands.
#[derive(Drop)]
pub struct Point {
    pub machine: Machine,
    pub place: Place,
}

/// Whether a mark names another entry than this one.
pub fn is_other(mark: Option<u64>, at: u64) -> bool
    ensures { result ≡ is_other_of mark at }
{
    match mark {
        Some(number) => number != at,
        None => false,
    }
}

/// Whether a base may begin at an entry of this number with this count.
fn can_begin(snap: bool, at: u64, count: u64) -> bool
    ensures { result ≡ can_begin_of snap at count }
{
    snap && at < 1 << 61 && count < 1 << 61
}

/// Where the base begins, or why none does, by what both readings tell.
pub fn take_point(read: Stretched, place: Place, at: u64) -> Result<Point, RetainFault>
    ensures { Taken read place at result }
{
    if let Some(number) = read.fault {
        return Err(RetainFault::Unreplayed(number));
    }
    let machine = read.machine;
    if !can_begin(place.snap, at, machine.count()) {
        return Err(RetainFault::Range);
    }
    if machine.devices().pending() {
        return Err(RetainFault::Range);
    }
    Ok(Point { machine, place })
}
