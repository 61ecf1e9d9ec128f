//! Segments made from a guest's words and a list of entries.

ghost use Rattle.std.specs.Prelude.{IsTrue, IfSome, None, ◌≡◌, ◌-◌, ◌^◌, ◌≤◌};
ghost use Rattle.avm_model.specs.Bounds.{are_rows, none_past};

use avm_hash::Digest;
use avm_num::Room;
use guest_dev::{Devices, Peer};
use guest_machine::Machine;
use log_entry::put_frame;
use page_tree::Tree;
use rv32_mem::Ram;
use seg_file::put_front;
use snap_state::{head_len, put_head, state_root};
use std::alloc::Global;

/// An entry: its kind, its count, and the bytes of its content behind the count.
pub type Entry<'a> = (u8, u64, &'a [u8]);

/// The state before the first step: its head, its pages and its root.
#[derive(Drop)]
pub struct Origin {
    pub head: Vec<u8>,
    pub pages: Vec<u8>,
    pub root: Digest,
}

/// Puts the words at the front of a RAM.
pub fn put_words(ram: &mut Ram, words: &[u32]) {
    let mut addr = 0x8000_0000u32;
    for &word in words {
        let _stored = ram.store(addr, 4, word);
        addr = addr.wrapping_add(4);
    }
}

/// The machine that boots with this RAM, whose own id is 0.
#[tactic(auto, using(guest_machine::proofs::Heads::new_head))]
fn booting(alloc: Global, ram: Ram, snap: u32, rows: Vec<Peer>) -> Option<Machine>
    requires least { 1024 ≤ snap }
    requires most { snap ≤ 2 ^ 24 }
    requires rows { IsTrue (are_rows 0 0 rows.items) }
    requires none { IsTrue (none_past 0 rows.items) }
    requires sent { IsTrue (none_past (2 ^ 62 - 1) rows.items) }
    ensures { IfSome result (λ m. m.state.devices.clock ≡ None) }
{
    let Ok(devices) = Devices::new(alloc, 0, rows) else {
        return None;
    };
    let _pages = ram.pages();
    Some(Machine::new(devices, ram, snap, 0x8000_0000))
}

/// The state of a machine.
#[tactic(auto, unfolding(avm_num::specs::Room::left))]
pub fn origin_from(alloc: Global, machine: &Machine, pages: Vec<u8>, tree: &Tree) -> Option<Origin>
    requires { machine.now.state.devices.clock ≡ None }
{
    let mut head = Room::new(alloc, head_len(machine)).ok()?;
    put_head(&mut head, machine);
    Some(Origin {
        head: Vec::from_slice(alloc, head.bytes()).ok()?,
        pages,
        root: state_root(machine, &tree.root()),
    })
}

/// The state before the first step of a guest of one page.
pub fn origin_of(alloc: Global, words: &[u32], snap: u32, rows: Vec<Peer>) -> Option<Origin>
    requires least { 1024 ≤ snap }
    requires most { snap ≤ 2 ^ 24 }
    requires rows { IsTrue (are_rows 0 0 rows.items) }
    requires none { IsTrue (none_past 0 rows.items) }
    requires sent { IsTrue (none_past (2 ^ 62 - 1) rows.items) }
{
    let mut ram = Ram::new(alloc, 1).ok()?;
    put_words(&mut ram, words);
    let tree = Tree::build(alloc, &mut ram).ok()?;
    let pages = Vec::from_slice(alloc, ram.bytes()).ok()?;
    let machine = booting(alloc, ram, snap, rows)?;
    origin_from(alloc, &machine, pages, &tree)
}

/// The content of an entry.
pub fn content(alloc: Global, count: u64, behind: &[u8]) -> Option<Vec<u8>> {
    let mut content = Vec::from_slice(alloc, &count.to_be_bytes()).ok()?;
    content.extend_from_slice(behind).ok()?;
    Some(content)
}

/// Appends an entry's frame.
#[tactic(auto, unfolding(avm_num::specs::Room::left))]
pub fn push_entry(alloc: Global, out: &mut Vec<u8>, seq: u64, entry: Entry<'_>) -> Option<()> {
    let (kind, count, behind) = entry;
    let content = content(alloc, count, behind)?;
    if content.len() > 24576 {
        return None;
    }
    let mut frame = Room::new(alloc, 13 + content.len()).ok()?;
    put_frame(&mut frame, seq, kind, &content);
    out.extend_from_slice(frame.bytes()).ok()
}

/// What stands before the entries of a segment.
#[tactic(auto, unfolding(avm_num::specs::Room::left))]
pub fn front(
    alloc: Global,
    seq: u64,
    before: &Digest,
    head: &[u8],
    pages: &[u8],
) -> Option<Vec<u8>> {
    if head.len() > 11783 {
        return None;
    }
    let mut front = Room::new(alloc, 49 + head.len()).ok()?;
    put_front(&mut front, seq, before, head);
    let mut out = Vec::from_slice(alloc, front.bytes()).ok()?;
    out.extend_from_slice(pages).ok()?;
    Some(out)
}

/// The segment of a log from its first entry on: BOOT, and then these entries.
pub fn booted(alloc: Global, origin: &Origin, entries: &[Entry<'_>]) -> Option<Vec<u8>> {
    let mut out = front(alloc, 1, &Digest([0; 32]), &origin.head, &origin.pages)?;
    push_entry(alloc, &mut out, 1, (1, 0, &origin.root.0))?;
    let mut seq = 1u64;
    for &entry in entries {
        seq = seq.wrapping_add(1);
        push_entry(alloc, &mut out, seq, entry)?;
    }
    Some(out)
}

/// The segment of a guest without peers.
pub fn alone(alloc: Global, words: &[u32], entries: &[Entry<'_>]) -> Option<Vec<u8>> {
    let origin = origin_of(alloc, words, 1024, Vec::new(alloc))?;
    booted(alloc, &origin, entries)
}
