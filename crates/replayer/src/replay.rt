//! A log is judged one entry at a time.

ghost use Rattle.std.specs.Prelude.{◌≡◌, ℕ, ◌≤◌, ◌+◌, ◌∷◌, [], ◌++◌, List, Some, None, IfOk, IfErr, IfSome, IsSome, MatchResult, IfNone};
ghost use Rattle.avm_model.specs.Content.{content_at};
ghost use Rattle.avm_model.specs.Machine.{State};
ghost use Rattle.avm_model.specs.Pages.{sha_hashes};
ghost use Rattle.avm_model.specs.Reference.{timed, Given, Made, entry_of_frame};
ghost use Rattle.avm_model.specs.Rerun.{Stands, Replays, start};
ghost use Rattle.avm_model.specs.Timed.{Entry};
ghost use Rattle.log_entry.specs.Views.{frame_view};
ghost use Rattle.page_tree.specs.Nodes.{IsStale};
ghost use Rattle.replayer.specs.Pending.{ram_of};

use crate::judging::judge;
use guest_machine::{Machine, Outs};
use log_entry::{Frame, content};
use page_tree::Tree;
use std::marker::Model;

/// The number of the first entry that doesn't replay.
#[derive(Clone, Copy, Debug, PartialEq, Eq)]
pub struct Fault {
    pub seq: u64,
}

/// A machine that judges the entries of a log one after another, and the tree of its pages.
#[derive(Drop)]
pub struct Replay {
    machine: Machine,
    tree: Tree,
    pending: Outs,
    fault: Option<u64>,
}

impl Model for Replay {
    ghost use Rattle.replayer.specs.Replaying.{Replaying, replaying_of, IsReplay};

    ghost Value = { Replaying };

    ghost view = { replaying_of };

    ghost invariant = { IsReplay };
}

impl Replay {
    /// A replay from a machine's state, with the tree of its pages: only the leaves of dirty pages may be stale.
    pub fn new(machine: Machine, tree: Tree) -> Replay
        requires stale { IsStale sha_hashes (ram_of machine) tree }
        ensures { result ≡ record { stand = start machine.state; dirty = machine.dirty; nodes = tree; fault = None } }
    {
        Replay {
            machine,
            tree,
            pending: Outs::none(),
            fault: None,
        }
    }

    /// Judges the next entry, which has the form of its kind. Where the entries so far replay from a state, Ok says that
    /// they do with this one, and Err that they don't. After a fault each call answers it.
    pub fn entry(&mut self, frame: &Frame<'_>) -> Result<(), Fault>
        requires form { IsSome (content_at frame.now.kind frame.now.content.now) }
        ensures goes_on { IfOk result (λ _. (s : State) (es : List (Entry Given Made)) → Stands timed s es self.old.stand → Stands timed s (es ++ entry_of_frame (frame_view frame.now) ∷ []) self.new.stand) }
        ensures fault { self.old.fault ≡ None → IfErr result (λ _. (s : State) (es : List (Entry Given Made)) → Stands timed s es self.old.stand → Replays timed s (es ++ entry_of_frame (frame_view frame.now) ∷ []) → ⊥) }
        ensures number { self.old.fault ≡ None → IfErr result (λ f. f.seq ≡ frame.now.seq) }
        ensures kept { MatchResult result (λ _. (self.old.fault ≡ None) × (self.new.fault ≡ None)) (λ f. self.new.fault ≡ Some f.seq) }
        // An entry costs at most K steps.
        ensures short { self.new.stand.state.count ≤ self.old.stand.state.count + self.old.stand.state.snap }
        ensures again { IfSome self.old.fault (λ n. IfErr result (λ f. f.seq ≡ n)) }
    {
        if let Some(seq) = self.fault {
            return Err(Fault { seq });
        }
        let seq = frame.seq;
        match content(frame) {
            Some(content) => {
                if judge(
                    &mut self.machine,
                    &mut self.tree,
                    &mut self.pending,
                    content,
                ) {
                    return Ok(());
                }
                self.fault = Some(seq);
                Err(Fault { seq })
            }
            None => unreachable!(),
        }
    }

    /// The machine. Without a fault it is the one after the last entry, its step completed.
    pub fn machine(&self) -> &Machine
        ensures state { result.now.state ≡ self.now.stand.state }
        ensures dirty { result.now.dirty ≡ self.now.dirty }
    {
        &self.machine
    }

    /// The machine and the tree, which can be renewed to that of the machine's RAM.
    pub fn into_parts(self) -> (Machine, Tree)
        ensures state { result.0.state ≡ self.stand.state }
        ensures dirty { result.0.dirty ≡ self.dirty }
        ensures nodes { result.1 ≡ self.nodes }
        ensures stale { IsStale sha_hashes (ram_of result.0) result.1 }
    {
        (self.machine, self.tree)
    }
}
