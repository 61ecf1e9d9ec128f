//! The outputs of a step as entries of the batch, with the keep behind a snapshot.

ghost use Rattle.std.specs.Prelude.{◌≡◌, ℕ, ◌+◌, ◌*◌, ◌≤◌, ◌<◌, ◌^◌, List, None, length, false, true};
ghost use Rattle.avm_model.specs.Pages.{sha_hashes};
ghost use Rattle.avm_model.specs.Parts.{IsOrdinal};
ghost use Rattle.avm_model.specs.Reference.{made_of};
ghost use Rattle.guest_machine.specs.Outs.{IsOuts, snap_list};
ghost use Rattle.honest_model.specs.KeepPages.{KeepsMarked, WritesHead};
ghost use Rattle.journal_model.specs.Journal.{pages_ascend};
ghost use Rattle.page_tree.specs.Nodes.{IsStale};
ghost use Rattle.record_batch.specs.Batch.{batch_size, HasPlace};
ghost use Rattle.record_model.specs.Standing.{FitAll};
ghost use Rattle.record_parts.proofs.Fitting.{IsHalt, IsTo};
ghost use Rattle.record_parts.specs.Outs.{outs_made, pages_in, ram_in, with_made};
ghost use Rattle.record_machine.specs.Marks.{used_marks};
ghost use Rattle.std.specs.Prelude.{map};

use crate::drafts::Drafts;
use guest_machine::{Machine, Outs, Sent};
use page_tree::Tree;
use record_batch::Batch;
use record_parts::{put_halt, put_line, put_sent, put_snap};
use replayer::root_now;

/// Adds the entry of a snapshot with its keep, where one is due. Its root is made from the renewed tree.
fn put_due(
    batch: &mut Batch,
    machine: &mut Machine,
    tree: &mut Tree,
    drafts: &mut Drafts,
    all: bool,
    due: bool,
)
    requires clock { machine.old.state.devices.clock ≡ None }
    requires stale { IsStale sha_hashes (ram_in machine.old) tree.old }
    requires pages { length drafts.old.marks.items ≡ length machine.old.dirty }
    requires count { machine.old.state.count < 2 ^ 62 }
    requires number { IsOrdinal batch.old.next }
    requires place { HasPlace 16805500 batch.old }
    ensures value { (pages : List ℕ) × (due ≡ true → KeepsMarked machine.old.state (used_marks all machine.old.dirty) (pages_in pages))
        × (pages_ascend 0 (length machine.old.dirty) (pages_in pages) ≡ true)
        × (batch.new ≡ with_made batch.old machine.old.state pages (map (made_of machine.old.state) (snap_list due))) }
    ensures size { batch_size batch.new ≤ batch_size batch.old + 16805500 }
    ensures head { due ≡ true → WritesHead machine.old.state }
    ensures quiet { due ≡ false → machine.new.dirty ≡ machine.old.dirty }
    ensures state { machine.new.state ≡ machine.old.state }
    ensures marks { length machine.new.dirty ≡ length machine.old.dirty }
    ensures pages { length drafts.new.marks.items ≡ length drafts.old.marks.items }
    ensures stale { IsStale sha_hashes (ram_in machine.new) tree.new }
{
    if due {
        machine.bounds();
        drafts.make(machine, all);
        let root = root_now(machine, tree);
        machine.bounds();
        put_snap(
            batch,
            machine,
            &root,
            drafts.head.bytes(),
            drafts.marks.as_slice(),
        );
    }
}

/// Does nothing. Its clause says what the type says.
fn is_low(number: u32)
    ensures { number < 2 ^ 32 }
{}

/// Does nothing. Its clause says what the type says.
fn is_line(bytes: &[u8; 128])
    ensures { length bytes.now ≡ 128 }
{}

/// Does nothing. Its clause says what the type says.
fn is_to(sent: Option<Sent>)
    ensures { IsTo sent }
{
    match sent {
        Some(sent) => is_low(sent.peer),
        None => {}
    }
}

/// Does nothing. Its clause says what the type says.
fn is_halt(halt: Option<(u32, u32)>)
    ensures { IsHalt halt }
{
    match halt {
        Some((cause, value)) => {
            is_low(cause);
            is_low(value);
        }
        None => {}
    }
}

/// Adds the entries of a step's outputs, in their order.
#[tactic(auto, using(record_parts::proofs::Fitting::outs_fit))]
pub fn put_outs(
    batch: &mut Batch,
    machine: &mut Machine,
    tree: &mut Tree,
    drafts: &mut Drafts,
    all: bool,
    outs: &Outs,
)
    requires outs { IsOuts outs.now }
    requires clock { machine.old.state.devices.clock ≡ None }
    requires stale { IsStale sha_hashes (ram_in machine.old) tree.old }
    requires pages { length drafts.old.marks.items ≡ length machine.old.dirty }
    requires count { machine.old.state.count < 2 ^ 62 }
    requires number { IsOrdinal batch.old.next }
    requires numbers { batch.old.next + 4 < 2 ^ 62 }
    requires place { HasPlace 16807868 batch.old }
    ensures value { (pages : List ℕ) × (outs.now.snap ≡ true → KeepsMarked machine.old.state (used_marks all machine.old.dirty) (pages_in pages))
        × (pages_ascend 0 (length machine.old.dirty) (pages_in pages) ≡ true)
        × (batch.new ≡ with_made batch.old machine.old.state pages (outs_made machine.old.state outs.now)) }
    ensures fits { FitAll (outs_made machine.old.state outs.now) }
    ensures size { batch_size batch.new ≤ batch_size batch.old + 16807868 }
    ensures head { outs.now.snap ≡ true → WritesHead machine.old.state }
    ensures quiet { outs.now.snap ≡ false → machine.new.dirty ≡ machine.old.dirty }
    ensures state { machine.new.state ≡ machine.old.state }
    ensures marks { length machine.new.dirty ≡ length machine.old.dirty }
    ensures pages { length drafts.new.marks.items ≡ length machine.new.dirty }
    ensures stale { IsStale sha_hashes (ram_in machine.new) tree.new }
{
    is_line(&outs.line.bytes);
    is_to(outs.sent);
    is_halt(outs.halt);
    put_line(batch, machine, &outs.line);
    put_sent(batch, machine, outs.sent);
    put_halt(batch, machine, outs.halt);
    put_due(batch, machine, tree, drafts, all, outs.snap);
}
