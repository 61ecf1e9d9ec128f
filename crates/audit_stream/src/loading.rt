//! The machine of a snapshot, filled page by page.

ghost use Rattle.std.specs.Prelude.{◌≡◌, ◌<◌, None, [], length};
ghost use Rattle.avm_model.specs.Audit.{commits_to};
ghost use Rattle.avm_model.specs.Content.{content_at};
ghost use Rattle.avm_model.specs.Memory.{put_page};
ghost use Rattle.avm_model.specs.Pages.{sha_hashes};
ghost use Rattle.page_tree.specs.Nodes.{IsStale};
ghost use Rattle.replayer.specs.Pending.{ram_of};

use guest_machine::Machine;
use log_entry::Frame;
use page_tree::Tree;
use replayer::{Replay, root_now};
use state_replay::commits;
use std::marker::Model;

/// The machine of a snapshot whose pages are coming, and a tree that only dirty pages make stale.
#[derive(Drop)]
pub struct Loading {
    machine: Machine,
    tree: Tree,
}

impl Model for Loading {
    ghost use Rattle.audit_stream.specs.Loaded.{Loaded, loaded_by, IsLoaded};

    ghost Value = { Loaded };

    ghost view = { loaded_by };

    ghost invariant = { IsLoaded };
}

fn put_in(machine: &mut Machine, tree: &Tree, i: u32, page: &[u8; 4096])
    requires { IsStale sha_hashes (ram_of machine.old) tree.now }
    ensures state { i < length machine.old.dirty → machine.new.state ≡ record machine.old.state { ram = put_page machine.old.state.ram i page.now } }
    ensures dirty { length machine.new.dirty ≡ length machine.old.dirty }
    ensures stale { IsStale sha_hashes (ram_of machine.new) tree.now }
{
    if i < machine.ram().pages() {
        machine.ram_mut().set_page(i, page);
    }
}

impl Loading {
    pub fn new(machine: Machine, tree: Tree) -> Loading
        requires { IsStale sha_hashes (ram_of machine) tree }
        ensures { result ≡ record { machine = machine; nodes = tree } }
    {
        Loading { machine, tree }
    }

    /// Puts page i into the RAM, where it has one.
    pub fn page(&mut self, i: u32, page: &[u8; 4096])
        ensures state { i < length self.old.machine.dirty → self.new.machine.state ≡ record self.old.machine.state { ram = put_page self.old.machine.state.ram i page.now } }
        ensures dirty { length self.new.machine.dirty ≡ length self.old.machine.dirty }
    {
        put_in(&mut self.machine, &self.tree, i, page);
    }

    /// The replay of what follows the first entry, and whether that entry has the snapshot's root and count.
    pub fn begin(self, frame: &Frame<'_>) -> (Replay, bool)
        ensures stand { result.0.stand.state ≡ self.machine.state }
        ensures none { result.0.stand.pending ≡ [] }
        ensures fault { result.0.fault ≡ None }
        ensures committed { result.1 ≡ commits_to self.machine.state (content_at frame.now.kind frame.now.content.now) }
    {
        let Loading {
            mut machine,
            mut tree,
        } = self;
        let root = root_now(&mut machine, &mut tree);
        let committed = commits(&machine, &root, frame);
        (Replay::new(machine, tree), committed)
    }
}
