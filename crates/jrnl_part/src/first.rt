ghost use Rattle.std.specs.Prelude.{◌≡◌, ◌+◌, ◌^◌, ◌≤◌, ◌<◌, length};
ghost use Rattle.avm_num.specs.Room.{with_bytes, left};
ghost use Rattle.journal_model.specs.Part.{entry};
ghost use Rattle.journal_model.specs.Spelling.{part_bytes};
ghost use Rattle.jrnl_part.specs.First.{new_front, boot_frame};

use avm_hash::Digest;
use avm_num::Room;
use log_entry::put_frame;

/// Writes the header of a new journal, but for its pages.
#[tactic(auto, unfolding(crate::specs::First::new_front), using(avm_num::proofs::Writes::written))]
pub fn put_header(out: &mut Room, key: &[u8; 56], head: &[u8])
    requires short { length head.now < 2 ^ 32 }
    requires room { 113 + length head.now ≤ left out.old }
    ensures value { out.new ≡ with_bytes out.old (new_front key.now head.now) }
    ensures left { left out.new + (113 + length head.now) ≡ left out.old }
{
    out.put(b"AVMJ");
    out.put_u8(1);
    out.put(key);
    out.put_u64(1);
    out.put(&[0; 32]);
    out.put_u64(0);
    out.put_u32(head.len() as u32);
    out.put(head);
}

/// The content of BOOT: the count 0 and the root of the state.
#[tactic(auto, unfolding(avm_num::specs::Lists::be))]
fn boot_content(root: &Digest) -> [u8; 40]
    ensures { result ≡ (boot_frame root.now.0).content }
{
    let mut content = [0; 40];
    content[8..].copy_from_slice(&root.0);
    content
}

/// Writes the first entry of a new journal.
#[tactic(auto, unfolding(journal_model::specs::Spelling::part_bytes, avm_num::specs::Lists::one), using(avm_num::proofs::Writes::written))]
pub fn put_boot(out: &mut Room, root: &Digest)
    requires room { 54 ≤ left out.old }
    ensures value { out.new ≡ with_bytes out.old (part_bytes (entry (boot_frame root.now.0))) }
    ensures left { left out.new + 54 ≡ left out.old }
{
    let content = boot_content(root);
    out.put_u8(1);
    put_frame(out, 1, 1, &content);
}
