// A new journal on an empty disk, which a read and each image that a crash may leave then stand for.
ghost use Rattle.std.specs.Prelude.{◌≡◌, ◌+◌, ◌*◌, ◌^◌, ◌≤◌, ◌<◌, ◌++◌, ◌∷◌, [], true, Some, length, List, ℕ, IfSome, OnOk};
ghost use Rattle.avm_outside.specs.Outside.{BothTold, Counts};
ghost use Rattle.disk_gates.specs.Writing.{Each};
ghost use Rattle.journal_model.specs.Part.{longest_head};
ghost use Rattle.journal_model.specs.Header.{is_store_key, pages_in};
ghost use Rattle.jrnl_part.specs.First.{new_journal};
ghost use Rattle.format_command.specs.First.{CountsDisk, Makes};

use crate::End;
use avm_hash::Digest;
use avm_num::Room;
use avm_outside::{Disk, Failed, write_kept};
use command_parts::Fault;
use disk_gates::write_record;
use jrnl_part::{new_start, put_boot, put_header};
use std::alloc::Global;

// Writes a header and a closed gate behind it on an empty disk, and syncs.
fn write_header<D: Disk>(disk: &mut D, front: &[u8], pages: &[u8]) -> Result<(), Failed>
    requires empty { IfSome (D.seen disk.old) (λ was. was ≡ []) }
    requires fits { length front.now + length pages.now < 2 ^ 31 }
    ensures written { OnOk result (BothTold (D.seen disk.old) (D.seen disk.new) (λ was now. (now ≡ front.now ++ pages.now ++ 0 ∷ []) × Each (D.may_leave disk.new) (λ c. c ≡ now))) }
    ensures faults { Counts (D.faults disk.old) (D.faults disk.new) result }
{
    disk.write_at(0, front)?;
    disk.write_at(front.len() as u64, pages)?;
    write_kept(disk, (front.len() + pages.len()) as u64, &[0])
}

/// Makes the journal that has BOOT alone, of a header with this head and these pages, on an empty disk.
pub fn make_first<D: Disk>(
    alloc: Global,
    disk: &mut D,
    key: &[u8; 56],
    head: &[u8],
    pages: &[u8],
    root: &Digest,
) -> Result<End, Fault>
    requires key { is_store_key key.now ≡ true }
    requires head { length head.now ≤ longest_head }
    requires pages { (n : ℕ) × (pages_in head.now ≡ Some n) × (n ≤ 4096) × (length pages.now ≡ 4096 * n) }
    ensures makes { Makes (new_journal key.now head.now pages.now root.now.0) (D.seen disk.old) (D.seen disk.new) (D.may_leave disk.new) result }
    ensures faults { CountsDisk (D.faults disk.old) (D.faults disk.new) result }
{
    match disk.len() {
        Ok(0) => {}
        Ok(_) => return Ok(End::RefusedNotEmpty),
        Err(Failed) => return Err(Fault::Disk),
    }
    let Ok(mut text) = Room::new(alloc, 1 << 15) else {
        return Err(Fault::NoMemory);
    };
    put_header(&mut text, key, head);
    let Ok(()) = write_header(disk, text.bytes(), pages) else {
        return Err(Fault::Disk);
    };
    let start = new_start(*key, head, pages, text.bytes().len() + pages.len());
    text.clear();
    text.put_u32(54);
    let bytes = root.0;
    put_boot(&mut text, &Digest(bytes));
    text.put_u8(0);
    match write_record(disk, start.front, text.bytes()) {
        Ok(()) => Ok(End::StoreMade),
        Err(Failed) => Err(Fault::Disk),
    }
}
