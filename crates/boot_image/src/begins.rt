// Whether a segment begins with the boot of an image.
ghost use Rattle.std.specs.Prelude.{◌≡◌, Some, IsSome, IfOk, MatchBool};
ghost use Rattle.avm_model.specs.Frame.{frames_of};
ghost use Rattle.avm_model.specs.Head.{HeadData};
ghost use Rattle.avm_model.specs.HeadReading.{head_of};
ghost use Rattle.avm_model.specs.HeadState.{state_of};
ghost use Rattle.avm_model.specs.ImageState.{is_image_of};
ghost use Rattle.avm_model.specs.Segment.{whole_segment_of};
ghost use Rattle.avm_model.specs.SegmentPages.{HasPages};
ghost use Rattle.boot_image.specs.Begins.{BeginsAs, is_boot_first as is_boot_first_lem};
ghost use Rattle.seg_file.specs.Views.{segment_view};

use crate::booted::is_booted;
use avm_num::NoMemory;
use log_entry::Frames;
use rv32_loader::load;
use rv32_mem::Ram;
use seg_file::{Segment, read_segment};
use snap_state::{machine_of, read_head};
use std::alloc::Global;

const BOOT: u8 = 1;

fn is_boot_first(frames: &[u8]) -> bool
    ensures { result ≡ is_boot_first_lem (frames_of frames.now) }
{
    match Frames::new(frames).next() {
        Some(frame) => frame.kind == BOOT,
        None => false,
    }
}

// Whether the segment's snapshot is the image's initial state. No page is copied: the head's machine gets the image's RAM,
// with which the pages are compared.
fn is_snapshot_of(alloc: Global, segment: &Segment<'_>, image: &[u8]) -> Result<bool, NoMemory>
    requires head { IsSome (head_of segment.now.head.now) }
    requires pages { (h : HeadData) → head_of segment.now.head.now ≡ Some h → HasPages (segment_view segment.now) h }
    ensures { IfOk result (λ is. (h : HeadData) → head_of segment.now.head.now ≡ Some h → is ≡ is_image_of (state_of h segment.now.pages.now) image.now) }
{
    let mut ram = Ram::new(alloc, (segment.pages.len() / 4096) as u32)?;
    match load(&mut ram, image) {
        Ok(entry) => {
            let machine = machine_of(alloc, segment.head, ram)?;
            Ok(is_booted(&machine, segment.pages, entry))
        }
        Err(_) => Ok(false),
    }
}

/// Whether the bytes are a segment that begins with BOOT, whose snapshot is the image's initial state under the head's version,
/// own id, number of steps between snapshots, page count and peers. It is that of no image that is refused.
pub fn begins_as(alloc: Global, segment: &[u8], image: &[u8]) -> Result<bool, NoMemory>
    ensures { IfOk result (λ is. MatchBool is (BeginsAs image.now (whole_segment_of segment.now)) (BeginsAs image.now (whole_segment_of segment.now) → ⊥)) }
{
    let Some(parts) = read_segment(segment) else {
        return Ok(false);
    };
    if !read_head(parts.head) {
        return Ok(false);
    }
    if !is_boot_first(parts.frames) {
        return Ok(false);
    }
    is_snapshot_of(alloc, &parts, image)
}
