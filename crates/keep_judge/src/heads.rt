//! Whether a keep is good: whether it has the state that its SNAP entry tells.

ghost use Rattle.std.specs.Prelude.{◌≡◌, ◌≤◌, ◌==◌, ◌&&◌, Some, IfOk, List, ℕ, IsTrue, true, length, option_map};
ghost use Rattle.avm_model.specs.HeadReading.{head_of};
ghost use Rattle.avm_model.specs.HeadState.{data_of};
ghost use Rattle.avm_model.specs.Pages.{page_root};
ghost use Rattle.avm_model.specs.Root.{root_over};
ghost use Rattle.honest_model.specs.Keeps.{same_front, same_peers, within_steps};
ghost use Rattle.journal_model.specs.Header.{pages_in};
ghost use Rattle.keep_judge.specs.Good.{is_good_keep, pages_fit, told_view};

use crate::told::Told;
use avm_hash::{Digest, Hasher};
use avm_model::Peer;
use avm_num::{NoMemory, View, are_bytes};
use guest_machine::Machine;
use jrnl_part::Keep;
use rv32_mem::Ram;
use snap_state::{machine_of, read_head};
use std::alloc::Global;

/// Whether peers have the same ids and keys.
fn same_rows(a: &[Peer], b: &[Peer]) -> bool
    ensures { result ≡ same_peers a.now b.now }
{
    let [x, more_a @ ..] = a else {
        return b.is_empty();
    };
    let [y, more_b @ ..] = b else {
        return false;
    };
    x.id == y.id && x.key == y.key && same_rows(more_a, more_b)
}

/// Whether two heads are of one machine: version, K, page count, own id, and the ids and keys of the peers.
#[tactic(auto, using(avm_model::proofs::PageDepth::pages_are))]
fn same_machine(a: &Machine, b: &Machine) -> bool
    ensures { result ≡ same_front (data_of a.now.state) (data_of b.now.state) }
{
    a.bounds();
    b.bounds();
    let x = a.devices();
    let y = b.devices();
    x.version() == y.version()
        && a.snap() == b.snap()
        && a.ram().pages() == b.ram().pages()
        && x.own() == y.own()
        && same_rows(x.peers(), y.peers())
}

/// Whether an entry of a number can have a machine's count: an entry costs at most K steps.
fn is_within(own: &Machine, first: u64, seq: u64, machine: &Machine) -> bool
    ensures { result ≡ within_steps first (data_of own.now.state) seq (data_of machine.now.state) }
{
    let from = if first == 1 { 0 } else { own.count() };
    let steps = own.snap() as u128 * seq.saturating_sub(first) as u128;
    machine.count() as u128 <= from as u128 + steps
}

/// The root of the state of a head over pages with this root.
#[tactic(auto, unfolding(avm_model::specs::Root::root_over))]
fn root_of(head: &[u8], pages: &Digest) -> Digest
    ensures { result.0 ≡ root_over head.now pages.now.0 }
{
    let mut hasher = Hasher::new();
    hasher.update(&[2]);
    hasher.update(head);
    hasher.update(&pages.0);
    hasher.finish()
}

/// The page count in a head; None exactly where it isn't one.
#[tactic(auto, unfolding(journal_model::specs::Header::pages_in))]
fn page_count(head: &[u8]) -> Option<u32>
    ensures { result ≡ pages_in head.now }
{
    if head.len() < 6 {
        return None;
    }
    let mut view = View::new(&head[6..]);
    let count = view.take_u32()?;
    if count > 0 && 4096 % count == 0 {
        Some(count)
    } else {
        None
    }
}

/// Whether the bytes are a head of so many pages.
pub fn fits(head: &[u8], pages: u32) -> bool
    ensures value { result ≡ pages_fit pages (head_of head.now) }
    ensures short { result ≡ true → length head.now ≤ 11783 }
{
    are_bytes(head);
    if !read_head(head) {
        return false;
    }
    match page_count(head) {
        Some(count) => count == pages,
        None => false,
    }
}

/// The machine of a head over a RAM of zeros, as large as another machine's.
pub fn bare_machine(alloc: Global, head: &[u8], pages: u32) -> Result<Machine, NoMemory>
    requires fits { pages_fit pages (head_of head.now) ≡ true }
    ensures data { IfOk result (λ m. head_of head.now ≡ Some (data_of m.state)) }
    ensures pages { IfOk result (λ m. length m.dirty ≡ pages) }
{
    let ram = Ram::new(alloc, pages)?;
    let machine = machine_of(alloc, head, ram)?;
    Ok(machine)
}

/// Whether the machine of a keep's head has the count that is told, and is the header's machine so many steps later.
fn is_later(own: &Machine, first: u64, seq: u64, count: u64, machine: &Machine) -> bool
    ensures { result ≡ (count == (data_of machine.now.state).hart.count && within_steps first (data_of own.now.state) seq (data_of machine.now.state) && same_front (data_of own.now.state) (data_of machine.now.state)) }
{
    count == machine.count() && is_within(own, first, seq, machine) && same_machine(own, machine)
}

/// Whether a keep has the state that its SNAP entry tells; `pages` is the root of the pages there.
pub fn is_good(
    alloc: Global,
    own: &Machine,
    first: u64,
    keep: &Keep<'_>,
    told: Option<Told>,
    pages: &Digest,
) -> Result<bool, NoMemory>
    ensures value { IfOk result (λ g. (ram : List ℕ) → pages.now.0 ≡ page_root ram → length ram ≡ length own.now.state.ram
        → g ≡ is_good_keep (data_of own.now.state) first keep.now.seq (option_map told_view told) ram (head_of keep.now.head.now)) }
    ensures fits { IfOk result (λ g. g ≡ true → pages_fit (length own.now.dirty) (head_of keep.now.head.now) ≡ true) }
    ensures short { IfOk result (λ g. g ≡ true → length keep.now.head.now ≤ 11783) }
{
    let count = own.ram().pages();
    if !fits(keep.head, count) {
        return Ok(false);
    }
    let Some(told) = told else {
        return Ok(false);
    };
    are_bytes(keep.head);
    if told.root != root_of(keep.head, pages).0 {
        return Ok(false);
    }
    let machine = bare_machine(alloc, keep.head, count)?;
    Ok(is_later(own, first, keep.seq, told.count, &machine))
}
