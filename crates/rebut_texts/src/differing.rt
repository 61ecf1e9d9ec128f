// The texts of two states, compared.
ghost use Rattle.std.specs.Prelude.{◌≡◌, None, IfOk, length, option_map};
ghost use Rattle.avm_model.specs.Pages.{sha_hashes, root_of};
ghost use Rattle.page_tree.specs.Nodes.{IsTree, at};
ghost use Rattle.rebut_model.specs.Texts.{first_of_all, differ, state_texts, OfHead};
ghost use Rattle.rebut_texts.specs.Found.{found_view};

use crate::bytes::Found;
use crate::pages::walk_pages;
use crate::states::state_text;
use avm_num::NoMemory;
use guest_machine::Machine;
use page_tree::Tree;
use std::alloc::Global;

/// The first texts of two states that differ: the state texts, else those of a place of their page trees.
#[tactic(auto, unfolding(avm_model::specs::Pages::page_root))]
pub fn compare_states(
    alloc: Global,
    ours: &Machine,
    our_tree: &Tree,
    theirs: &Machine,
    their_tree: &Tree,
) -> Result<Option<Found>, NoMemory>
    requires clock { ours.now.state.devices.clock ≡ None }
    requires tree { IsTree sha_hashes ours.now.state.ram (length ours.now.dirty) our_tree.now }
    requires root { at our_tree.now 1 ≡ root_of sha_hashes ours.now.state.ram }
    requires their_clock { theirs.now.state.devices.clock ≡ None }
    requires their_tree { IsTree sha_hashes theirs.now.state.ram (length theirs.now.dirty) their_tree.now }
    requires their_root { at their_tree.now 1 ≡ root_of sha_hashes theirs.now.state.ram }
    ensures value { IfOk result (λ r. option_map found_view r ≡ first_of_all differ (state_texts ours.now.state theirs.now.state)) }
    ensures whole { IfOk result (λ _. OfHead ours.now.state) }
    ensures their_whole { IfOk result (λ _. OfHead theirs.now.state) }
{
    let our_text = state_text(alloc, ours, &our_tree.root())?;
    let their_text = state_text(alloc, theirs, &their_tree.root())?;
    if our_text.as_slice() != their_text.as_slice() {
        return Ok(Some(Found {
            ours: our_text,
            theirs: their_text,
        }));
    }
    walk_pages(
        alloc,
        our_tree.nodes(),
        ours.ram().bytes(),
        their_tree.nodes(),
        theirs.ram().bytes(),
    )
}
