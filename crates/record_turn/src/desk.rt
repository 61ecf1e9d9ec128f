//! The parts of a recorder.

ghost use Rattle.std.proofs.Props.{props};
ghost use Rattle.std.specs.Prelude.{◌≡◌, ◌^◌, length};
ghost use Rattle.avm_model.specs.LmsTypes.{height_of};
ghost use Rattle.avm_model.specs.Pages.{sha_hashes};
ghost use Rattle.guest_machine.specs.Outs.{IsOuts};
ghost use Rattle.journal_model.specs.Header.{most_leaves};
ghost use Rattle.jrnl_store.specs.Kept.{kept as kept_of};
ghost use Rattle.page_tree.specs.Nodes.{IsStale};
ghost use Rattle.record_kept.specs.Tickets.{AreLow};
ghost use Rattle.record_parts.specs.Outs.{ram_in};
ghost use Rattle.record_turn.specs.Desk.{rows_of, marks_of};

use guest_machine::{Machine, Outs};
use page_tree::Tree;
use record_kept::Kept;
use record_machine::Drafts;
use record_press::Press;
use record_store::Store;

/// A journal with its open batch, the machine with its page tree, the tickets that are kept, the key that signs, and room for
/// what a step puts out. `all`: the next keep has all pages.
#[derive(Drop)]
pub struct Desk {
    pub store: Store,
    pub machine: Machine,
    pub tree: Tree,
    pub drafts: Drafts,
    pub kept: Kept,
    pub press: Press,
    pub outs: Outs,
    pub all: bool,
    pub ghost fits: { IsOuts outs } by { Prim.hlevel props },
    pub ghost pages: { length (marks_of drafts) ≡ length machine.dirty },
    pub ghost count: { length machine.dirty ≡ (kept_of store.journal).bounds.pages },
    pub ghost stale: { IsStale sha_hashes (ram_in machine) tree },
    pub ghost low: { AreLow (most_leaves (kept_of store.journal).key) (rows_of kept) } by { Prim.hlevel props },
    pub ghost leaves: { most_leaves (kept_of store.journal).key ≡ 2 ^ height_of press.key.lms },
}
