// Whether a journal's entries replay from the state of its header.
ghost use Rattle.std.specs.Prelude.{◌≡◌, ◌==◌, ◌&&◌, [], ◌∷◌, IsSome, None, true, false, length};
ghost use Rattle.std.specs.Str.{bytes_eq};
ghost use Rattle.avm_model.specs.Content.{content_at};
ghost use Rattle.avm_model.specs.Pages.{sha_hashes, root_of};
ghost use Rattle.jrnl_store.specs.Items.{item_view};
ghost use Rattle.log_entry.specs.Views.{frame_view};
ghost use Rattle.page_tree.specs.Nodes.{IsTree, at};
ghost use Rattle.rebut_pass.specs.Items.{frame_in, HasForm};
ghost use Rattle.rebut_judge.specs.Judging.{judge_view, commits_as, Judges, JudgedTo};

use avm_hash::Digest;
use guest_machine::Machine;
use jrnl_store::Item;
use log_entry::{Content, Frame, content};
use page_tree::Tree;
use replayer::Replay;
use snap_state::state_root;

/// A journal's entries, judged one after another: the first has the root and the count of the header's state, and the others
/// replay from there.
#[derive(Drop)]
pub struct Judge {
    pub replay: Replay,
    pub root: Digest,
    pub count: u64,
    pub first: u64,
    pub begun: bool,
    pub fault: Option<u64>,
}

fn has(root: &Digest, count: u64, told_root: &[u8; 32], told_count: u64) -> bool
    ensures { result ≡ (told_count == count && bytes_eq told_root.now root.now.0) }
{
    told_count == count && root.0 == *told_root
}

/// Whether an entry is a BOOT or a SNAP with this root and count.
fn commits(root: &Digest, count: u64, frame: &Frame<'_>) -> bool
    ensures { result ≡ commits_as root.now.0 count (content_at frame.now.kind frame.now.content.now) }
{
    match content(frame) {
        Some(
            Content::Boot {
                count: told,
                root: own,
            },
        ) => has(root, count, &own, told),
        Some(
            Content::Snap {
                count: told,
                root: own,
            },
        ) => has(root, count, &own, told),
        _ => false,
    }
}

impl Judge {
    /// From a machine's state on, with the tree of its pages.
    #[tactic(auto, using(page_tree::proofs::Kept::tree_stale))]
    pub fn new(machine: Machine, tree: Tree, first: u64) -> Judge
        requires tree { IsTree sha_hashes machine.state.ram (length machine.dirty) tree }
        requires root { at tree 1 ≡ root_of sha_hashes machine.state.ram }
        ensures { JudgedTo machine.state first [] (judge_view result) }
    {
        let root = state_root(&machine, &tree.root());
        let count = machine.count();
        Judge {
            replay: Replay::new(machine, tree),
            root,
            count,
            first,
            begun: false,
            fault: None,
        }
    }

    /// Judges the first entry.
    fn begin(&mut self, frame: &Frame<'_>)
        requires fault { self.old.fault ≡ None }
        requires begun { self.old.begun ≡ false }
        ensures { Judges (frame_view frame.now ∷ []) (judge_view self.old) (judge_view self.new) }
    {
        self.begun = true;
        if !commits(&self.root, self.count, frame) {
            self.fault = Some(self.first);
        }
    }

    /// Judges an entry behind the first.
    fn follow(&mut self, frame: &Frame<'_>)
        requires fault { self.old.fault ≡ None }
        requires begun { self.old.begun ≡ true }
        requires form { IsSome (content_at frame.now.kind frame.now.content.now) }
        ensures { Judges (frame_view frame.now ∷ []) (judge_view self.old) (judge_view self.new) }
    {
        if let Err(fault) = self.replay.entry(frame) {
            self.fault = Some(fault.seq);
        }
    }

    /// Judges the next entry.
    pub fn entry(&mut self, frame: &Frame<'_>)
        requires form { IsSome (content_at frame.now.kind frame.now.content.now) }
        ensures { Judges (frame_view frame.now ∷ []) (judge_view self.old) (judge_view self.new) }
    {
        if self.fault.is_some() {
            return;
        }
        if self.begun {
            self.follow(frame);
        } else {
            self.begin(frame);
        }
    }

    /// Judges the next item's entry.
    pub fn item(&mut self, item: &Item<'_>)
        requires form { HasForm (item_view item.now) }
        ensures { Judges (frame_in (item_view item.now)) (judge_view self.old) (judge_view self.new) }
    {
        if let Item::Entry(frame, _) = item {
            self.entry(frame);
        }
    }
}
