//! Keeps as they are spelled.

ghost use Rattle.std.specs.Prelude.{◌≡◌, ◌+◌, ◌*◌, ◌≤◌, ◌<◌, length};
ghost use Rattle.std.specs.List.{count_by};
ghost use Rattle.avm_num.specs.Lists.{list_bytes};
ghost use Rattle.avm_num.specs.Room.{with_bytes, left};
ghost use Rattle.journal_model.specs.Part.{keep, longest_head};
ghost use Rattle.journal_model.specs.Spelling.{part_bytes};
ghost use Rattle.record_batch.specs.Keeping.{AreMarks, keep_of, marked_from, page_bytes};

use avm_num::Room;
use rv32_mem::Ram;

/// Writes a page of a keep.
#[tactic(auto, using(avm_num::proofs::Writes::written))]
fn put_page(room: &mut Room, number: u32, page: &[u8; 4096])
    requires { 4100 ≤ left room.old }
    ensures value { room.new ≡ with_bytes room.old (page_bytes (record { number = number; bytes = page.now })) }
    ensures left { left room.new + 4100 ≡ left room.old }
{
    room.put_u32(number);
    room.put(page);
}

/// Writes the pages that have a mark.
fn put_pages(room: &mut Room, ram: &Ram, marks: &[bool])
    requires pages { length marks.now ≡ length ram.now.dirty }
    requires room { 4100 * length marks.now ≤ left room.old }
    ensures { room.new ≡ with_bytes room.old (list_bytes page_bytes (marked_from 0 marks.now ram.now.bytes)) }
{
    ram.pages();
    for (i, mark) in marks.iter().enumerate() {
        if *mark {
            put_page(room, i as u32, ram.page(i as u32));
        }
    }
}

/// How many pages have a mark.
fn count_marks(marks: &[bool]) -> usize
    ensures { result ≡ count_by (λ b. b) marks.now }
{
    marks.iter().filter(|mark| **mark).count()
}

/// Writes the keep of a SNAP entry's number.
#[tactic(auto, using(avm_num::proofs::Writes::written))]
pub fn put_keep(room: &mut Room, seq: u64, head: &[u8], ram: &Ram, marks: &[bool])
    requires head { length head.now ≤ longest_head }
    requires pages { length marks.now ≡ length ram.now.dirty }
    requires room { 17 + length head.now + 4100 * length marks.now ≤ left room.old }
    ensures value { room.new ≡ with_bytes room.old (part_bytes (keep (keep_of seq head.now marks.now ram.now.bytes))) }
    ensures marks { AreMarks marks.now ram.now.bytes }
{
    ram.pages();
    room.put_u8(3);
    room.put_u64(seq);
    room.put_u32(head.len() as u32);
    room.put(head);
    room.put_u32(count_marks(marks) as u32);
    put_pages(room, ram, marks);
}
