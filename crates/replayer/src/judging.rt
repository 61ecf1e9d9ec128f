//! One entry is judged.

ghost use Rattle.std.specs.Prelude.{◌≡◌, ◌≤◌, ◌+◌, ◌<◌, ◌^◌, Some, None, MatchBool};
ghost use Rattle.avm_model.specs.Content.{count_of as count_of_lem, FitsContent};
ghost use Rattle.avm_model.specs.Judge.{judge as judge_lem, settled as settled_lem, compare};
ghost use Rattle.avm_model.specs.Pages.{sha_hashes};
ghost use Rattle.avm_model.specs.Reference.{timed, entry_of_content, SnapAt};
ghost use Rattle.log_entry.specs.Views.{content_view};
ghost use Rattle.guest_machine.specs.Outs.{IsOuts};
ghost use Rattle.page_tree.specs.Nodes.{IsStale};
ghost use Rattle.replayer.specs.Pending.{pending_of, stand_of, ram_of};

use crate::pending::{match_halt, match_out, match_send};
use crate::settling::settle;
use crate::snapshot::root_now;
use crate::taking::{Incoming, accept_input};
use guest_machine::{Machine, Outs};
use log_entry::Content;
use page_tree::Tree;

/// The count of an entry.
fn count_of(content: &Content<'_>) -> u64
    ensures { result ≡ count_of_lem (content_view content.now) }
{
    match *content {
        Content::Boot { count, .. } => count,
        Content::Snap { count, .. } => count,
        Content::ConIn { count, .. } => count,
        Content::Clock { count, .. } => count,
        Content::Recv { count, .. } => count,
        Content::Acked { count, .. } => count,
        Content::Out { count, .. } => count,
        Content::Send { count, .. } => count,
        Content::Halt { count, .. } => count,
    }
}

/// Takes the snapshot off, where it is the next output and that of a SNAP entry: the root is made from the renewed tree.
fn match_snap(
    machine: &mut Machine,
    tree: &mut Tree,
    pending: &mut Outs,
    count: u64,
    root: &[u8; 32],
) -> bool
    requires stale { IsStale sha_hashes (ram_of machine.old) tree.old }
    requires fits { IsOuts pending.old }
    ensures judged { MatchBool result (compare timed (SnapAt count root.now) machine.old.state (pending_of machine.old.state pending.old) ≡ Some (stand_of machine.new.state pending.new))
        (compare timed (SnapAt count root.now) machine.old.state (pending_of machine.old.state pending.old) ≡ None) }
    ensures state { machine.new.state ≡ machine.old.state }
    ensures stale { IsStale sha_hashes (ram_of machine.new) tree.new }
    ensures fits { IsOuts pending.new }
{
    if pending.line.len != 0 || pending.sent.is_some() || pending.halt.is_some() || !pending.snap {
        return false;
    }
    if machine.count() != count || root_now(machine, tree).0 != *root {
        return false;
    }
    pending.snap = false;
    true
}

/// Judges an entry where the machine has made the steps up to it.
fn settled(machine: &mut Machine, tree: &mut Tree, pending: &mut Outs, content: Content<'_>) -> bool
    requires stale { IsStale sha_hashes (ram_of machine.old) tree.old }
    requires fits { IsOuts pending.old }
    ensures judged { MatchBool result (settled_lem timed (entry_of_content (content_view content.entry)) (stand_of machine.old.state pending.old) ≡ Some (stand_of machine.new.state pending.new))
        (settled_lem timed (entry_of_content (content_view content.entry)) (stand_of machine.old.state pending.old) ≡ None) }
    ensures stale { IsStale sha_hashes (ram_of machine.new) tree.new }
    ensures fits { IsOuts pending.new }
    ensures count { machine.new.state.count ≡ machine.old.state.count }
{
    match content {
        Content::Boot { .. } => false,
        Content::Snap { count, root } => match_snap(machine, tree, pending, count, &root),
        Content::ConIn { count, bytes } => accept_input(
            machine,
            pending,
            count,
            Incoming::Console(bytes),
        ),
        Content::Clock { count, value } => accept_input(
            machine,
            pending,
            count,
            Incoming::Clock(value),
        ),
        Content::Recv { count, packet } => accept_input(
            machine,
            pending,
            count,
            Incoming::Recv(packet),
        ),
        Content::Acked { count, packet } => accept_input(
            machine,
            pending,
            count,
            Incoming::Acked(packet),
        ),
        Content::Out { count, bytes } => match_out(machine, pending, count, bytes),
        Content::Send {
            count,
            peer,
            number,
            payload,
        } => match_send(machine, pending, count, peer, number, payload),
        Content::Halt {
            count,
            cause,
            value,
        } => match_halt(machine, pending, count, cause, value),
    }
}

/// Judges the next entry: makes the steps up to it, and compares it or takes it.
pub fn judge(
    machine: &mut Machine,
    tree: &mut Tree,
    pending: &mut Outs,
    content: Content<'_>,
) -> bool
    requires count { count_of_lem (content_view content) < 2 ^ 62 }
    requires stale { IsStale sha_hashes (ram_of machine.old) tree.old }
    requires fits { IsOuts pending.old }
    ensures judged { MatchBool result (judge_lem timed (stand_of machine.old.state pending.old) (entry_of_content (content_view content.entry)) ≡ Some (stand_of machine.new.state pending.new))
        (judge_lem timed (stand_of machine.old.state pending.old) (entry_of_content (content_view content.entry)) ≡ None) }
    ensures stale { IsStale sha_hashes (ram_of machine.new) tree.new }
    ensures fits { IsOuts pending.new }
    ensures short { machine.new.state.count ≤ machine.old.state.count + machine.old.state.snap }
{
    settle(machine, pending, count_of(&content));
    settled(machine, tree, pending, content)
}
