// The texts of two states.
ghost use Rattle.std.specs.Prelude.{◌≡◌, ◌+◌, ◌*◌, ◌/◌, ◌<◌, ◌≤◌, ◌∷◌, ◌++◌, None, Some, IfOk, length};
ghost use Rattle.avm_model.specs.Pages.{sha_hashes, root_of};
ghost use Rattle.page_tree.specs.Nodes.{IsTree, IsStale, at};
ghost use Rattle.rebut_model.specs.Texts.{state_text as state_text_lem, OfHead};
ghost use Rattle.rebut_texts.specs.Places.{place_text as place_text_lem};
ghost use Rattle.replayer.specs.Pending.{ram_of};

use crate::bytes::Bytes;
use avm_hash::Digest;
use avm_num::{NoMemory, Room};
use guest_machine::Machine;
use page_tree::{ShaPages, Tree};
use snap_state::{head_len, put_head};
use std::alloc::Global;
use std::marker::Brand;
use std::sync::ledger::{Blank, Ledger};

/// The text that is hashed for a state's root.
#[tactic(auto, unfolding(avm_model::specs::Pages::page_root, avm_num::specs::Lists::one, avm_num::specs::Room::left), using(crate::proofs::Opened::root_length))]
pub fn state_text(alloc: Global, machine: &Machine, pages: &Digest) -> Result<Bytes, NoMemory>
    requires clock { machine.now.state.devices.clock ≡ None }
    requires pages { pages.now ≡ root_of sha_hashes machine.now.state.ram }
    ensures text { IfOk result (λ b. b ≡ state_text_lem machine.now.state) }
    ensures whole { IfOk result (λ _. OfHead machine.now.state) }
{
    machine.bounds();
    let mut room = Room::new(alloc, head_len(machine) + 33)?;
    room.put_u8(2);
    put_head(&mut room, machine);
    room.put(&pages.0);
    Bytes::copy(alloc, room.bytes())
}

/// Renews a tree to that of a machine's RAM, with a ledger for the count of hashes.
fn renew_counted<L: Ledger>(machine: &mut Machine, tree: &mut Tree, blank: Blank)
    requires name { blank.name ≡ L.name }
    requires parts { blank.parts ≡ L.parts }
    requires some { 0 < L.parts }
    requires stale { IsStale sha_hashes (ram_of machine.old) tree.old }
    ensures state { machine.new.state ≡ machine.old.state }
    ensures tree { IsTree sha_hashes machine.new.state.ram (length machine.new.dirty) tree.new }
    ensures root { at tree.new 1 ≡ root_of sha_hashes machine.new.state.ram }
{
    let mut hasher = ShaPages::<L>::new(blank);
    tree.refresh(machine.ram_mut(), &mut hasher);
}

/// Renews a tree to that of a machine's RAM.
pub fn renew(machine: &mut Machine, tree: &mut Tree)
    requires stale { IsStale sha_hashes (ram_of machine.old) tree.old }
    ensures state { machine.new.state ≡ machine.old.state }
    ensures tree { IsTree sha_hashes machine.new.state.ram (length machine.new.dirty) tree.new }
    ensures root { at tree.new 1 ≡ root_of sha_hashes machine.new.state.ram }
{
    renew_counted::<Brand>(machine, tree, Blank::new(1));
}

/// The text that is hashed over two nodes.
#[tactic(auto, unfolding(avm_num::specs::Lists::one, avm_num::specs::Room::left))]
fn inner_text(alloc: Global, left: &[u8; 32], right: &[u8; 32]) -> Result<Bytes, NoMemory>
    ensures { IfOk result (λ b. b ≡ 1 ∷ (left.now ++ right.now)) }
{
    let mut room = Room::new(alloc, 65)?;
    room.put_u8(1);
    room.put(left);
    room.put(right);
    Bytes::copy(alloc, room.bytes())
}

/// The text that is hashed over a page.
#[tactic(auto, unfolding(avm_num::specs::Lists::one, avm_num::specs::Room::left))]
fn leaf_text(alloc: Global, page: &[u8]) -> Result<Bytes, NoMemory>
    requires { length page.now ≡ 4096 }
    ensures { IfOk result (λ b. b ≡ 0 ∷ page.now) }
{
    let mut room = Room::new(alloc, 4097)?;
    room.put_u8(0);
    room.put(page);
    Bytes::copy(alloc, room.bytes())
}

/// The text that is hashed at a place of a page tree.
pub fn place_text(
    alloc: Global,
    nodes: &[Digest],
    pages: &[u8],
    place: usize,
) -> Result<Bytes, NoMemory>
    requires nodes { length nodes.now ≡ 2 * (length nodes.now / 2) }
    requires pages { length pages.now ≡ 4096 * (length nodes.now / 2) }
    requires place { place < length nodes.now }
    ensures { IfOk result (λ b. b ≡ place_text_lem (length nodes.now / 2) nodes.now pages.now place) }
{
    let count = nodes.len() / 2;
    if place < count {
        inner_text(alloc, &nodes[2 * place].0, &nodes[2 * place + 1].0)
    } else {
        leaf_text(
            alloc,
            &pages[4096 * (place - count)..4096 * (place - count) + 4096],
        )
    }
}
