// The machine of a journal's header.
ghost use Rattle.std.specs.Prelude.{◌≡◌, is_some, Some, None, IfOk, IfSome, MatchOption, length, true, false};
ghost use Rattle.avm_model.specs.Head.{HeadData};
ghost use Rattle.avm_model.specs.HeadReading.{head_of};
ghost use Rattle.avm_model.specs.HeadState.{state_of};
ghost use Rattle.avm_model.specs.Pages.{sha_hashes, root_of};
ghost use Rattle.honest_model.specs.Honest.{header_state};
ghost use Rattle.journal_model.specs.Header.{pages_in};
ghost use Rattle.jrnl_store.specs.Kept.{kept};
ghost use Rattle.page_tree.specs.Nodes.{IsTree, at};
ghost use Rattle.rebuttal.specs.HeadPages.{IsHeadOf};
ghost use Rattle.rebut_pass.specs.Reads.{OnlyReads, ReadCounts, OfJournal, OfState};

use avm_num::{NoMemory, Room, View};
use avm_outside::Disk;
use guest_machine::Machine;
use jrnl_store::Journal;
use page_tree::Tree;
use rebut_pass::ReadFault;
use rv32_mem::Ram;
use snap_state::{machine_of, read_head};
use std::alloc::Global;

/// Reads the head of a journal's header.
#[tactic(auto, unfolding(avm_num::specs::Room::left))]
fn read_header<D: Disk>(
    alloc: Global,
    journal: &mut Journal,
    disk: &mut D,
) -> Result<Room, ReadFault>
    ensures head { IfOk result (λ room. OfJournal (D.seen disk.old) (kept journal.old) (λ j. room.bytes ≡ j.header.head)) }
    ensures kept { kept journal.new ≡ kept journal.old }
    ensures reads { OnlyReads D.seen D.may_leave D.moment D.left_since disk.old disk.new }
    ensures faults { ReadCounts (D.faults disk.old) (D.faults disk.new) result }
{
    let mut head = Room::new(alloc, 16384)?;
    match journal.head(disk, &mut head) {
        Ok(()) => Ok(head),
        Err(_) => Err(ReadFault::DiskFault),
    }
}

/// Whether the head of a journal's header is one.
pub fn has_head<D: Disk>(
    alloc: Global,
    journal: &mut Journal,
    disk: &mut D,
) -> Result<bool, ReadFault>
    ensures head { IfOk result (λ b. OfJournal (D.seen disk.old) (kept journal.old) (λ j. b ≡ is_some (header_state j.header))) }
    ensures kept { kept journal.new ≡ kept journal.old }
    ensures reads { OnlyReads D.seen D.may_leave D.moment D.left_since disk.old disk.new }
    ensures faults { ReadCounts (D.faults disk.old) (D.faults disk.new) result }
{
    let head = read_header(alloc, journal, disk)?;
    Ok(read_head(head.bytes()))
}

/// The page count in a head; None exactly where it isn't one.
#[tactic(auto, unfolding(journal_model::specs::Header::pages_in))]
fn page_count(head: &[u8]) -> Option<u32>
    ensures { result ≡ pages_in head.now }
{
    if head.len() < 6 {
        return None;
    }
    let mut view = View::new(&head[6..]);
    let count = view.take_u32()?;
    if count > 0 && 4096 % count == 0 {
        Some(count)
    } else {
        None
    }
}

/// Whether the bytes are a head of so many pages.
fn has_pages(head: &[u8], pages: u32) -> bool
    ensures found { result ≡ true → IsHeadOf head.now pages }
    ensures none { result ≡ false → pages_in head.now ≡ Some pages → head_of head.now ≡ None }
{
    match page_count(head) {
        Some(count) => {
            if count == pages {
                read_head(head)
            } else {
                false
            }
        }
        None => false,
    }
}

/// The machine of a head with a RAM, and the tree of its pages.
fn machine_with(alloc: Global, head: &[u8], ram: Ram) -> Result<(Machine, Tree), NoMemory>
    requires { IsHeadOf head.now (length ram.dirty) }
    ensures state { IfOk result (λ p. (h : HeadData) → head_of head.now ≡ Some h → p.0.state ≡ state_of h ram.bytes) }
    ensures tree { IfOk result (λ p. IsTree sha_hashes p.0.state.ram (length p.0.dirty) p.1) }
    ensures root { IfOk result (λ p. at p.1 1 ≡ root_of sha_hashes p.0.state.ram) }
{
    let mut ram = ram;
    let tree = Tree::build(alloc, &mut ram)?;
    let machine = machine_of(alloc, head, ram)?;
    Ok((machine, tree))
}

/// The machine of a head with the pages of a journal's header, and the tree of its pages.
fn filled<D: Disk>(
    alloc: Global,
    journal: &mut Journal,
    disk: &mut D,
    head: &[u8],
) -> Result<(Machine, Tree), ReadFault>
    requires { IsHeadOf head.now (kept journal.old).bounds.pages }
    ensures state { IfOk result (λ p. OfJournal (D.seen disk.old) (kept journal.old) (λ j. (h : HeadData) → head_of head.now ≡ Some h → p.0.state ≡ state_of h j.header.pages)) }
    ensures tree { IfOk result (λ p. IsTree sha_hashes p.0.state.ram (length p.0.dirty) p.1) }
    ensures root { IfOk result (λ p. at p.1 1 ≡ root_of sha_hashes p.0.state.ram) }
    ensures kept { kept journal.new ≡ kept journal.old }
    ensures reads { OnlyReads D.seen D.may_leave D.moment D.left_since disk.old disk.new }
    ensures faults { ReadCounts (D.faults disk.old) (D.faults disk.new) result }
{
    let mut ram = Ram::new(alloc, journal.page_count())?;
    match journal.pages(disk, &mut ram) {
        Ok(()) => {}
        Err(_) => return Err(ReadFault::DiskFault),
    }
    match machine_with(alloc, head, ram) {
        Ok(parts) => Ok(parts),
        Err(_) => Err(ReadFault::NoMemory),
    }
}

/// The machine of a journal's header, and the tree of its pages; None where its head isn't one.
pub fn header_machine<D: Disk>(
    alloc: Global,
    journal: &mut Journal,
    disk: &mut D,
) -> Result<Option<(Machine, Tree)>, ReadFault>
    ensures state { IfOk result (λ o. OfState (D.seen disk.old) (kept journal.old) (λ s j. MatchOption o ⊥ (λ p. p.0.state ≡ s))) }
    ensures tree { IfOk result (λ o. IfSome o (λ p. IsTree sha_hashes p.0.state.ram (length p.0.dirty) p.1)) }
    ensures root { IfOk result (λ o. IfSome o (λ p. at p.1 1 ≡ root_of sha_hashes p.0.state.ram)) }
    ensures kept { kept journal.new ≡ kept journal.old }
    ensures reads { OnlyReads D.seen D.may_leave D.moment D.left_since disk.old disk.new }
    ensures faults { ReadCounts (D.faults disk.old) (D.faults disk.new) result }
{
    let head = read_header(alloc, journal, disk)?;
    if !has_pages(head.bytes(), journal.page_count()) {
        return Ok(None);
    }
    match filled(alloc, journal, disk, head.bytes()) {
        Ok(parts) => Ok(Some(parts)),
        Err(fault) => Err(fault),
    }
}
