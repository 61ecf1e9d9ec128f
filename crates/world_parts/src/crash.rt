//! The image that a crash leaves.

ghost use Rattle.std.specs.Prelude.{◌≡◌, ◌≤◌, IfOk};
ghost use Rattle.avm_outside.specs.DiskLog.{IsImage};
ghost use Rattle.avm_outside.specs.MemDisks.{disk_calls, disk_state};
ghost use Rattle.world_parts.specs.Crash.{crash_image as image_of_crash};

use avm_num::NoMemory;
use avm_outside::MemDisk;
use std::alloc::Global;

/// The image of a disk that a crash leaves behind its first calls, so many: of the greatest length that it may have, or of the
/// least, and with this byte in each place where it may have any.
#[tactic(auto, using(crate::proofs::Extents::ordered))]
pub fn crash_image(
    alloc: Global,
    disk: &MemDisk,
    calls: usize,
    long: bool,
    fill: u8,
) -> Result<Vec<u8>, NoMemory>
    requires calls { calls ≤ disk_calls disk.now }
    ensures value { IfOk result (λ image. image.items ≡ image_of_crash (disk_state disk.now calls) long fill) }
    ensures may_be_left { IfOk result (λ image. IsImage (disk_state disk.now calls) image.items) }
{
    let len = if long {
        disk.most(calls)
    } else {
        disk.least(calls)
    };
    let Ok(choice) = vec![in alloc; fill; len] else {
        return Err(NoMemory);
    };
    disk.image(alloc, calls, len, &choice)
}
