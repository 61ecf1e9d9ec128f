//! The machine that a head and pages tell.

ghost use Rattle.std.specs.Prelude.{◌≡◌, ◌==◌, ◌&&◌, Some, IfOk, length};
ghost use Rattle.std.specs.Str.{bytes_eq};
ghost use Rattle.avm_model.specs.Audit.{commits_to};
ghost use Rattle.avm_model.specs.Content.{content_at};
ghost use Rattle.avm_model.specs.Root.{root as root_lem};
ghost use Rattle.avm_model.specs.Head.{HeadData};
ghost use Rattle.avm_model.specs.HeadReading.{head_of};
ghost use Rattle.avm_model.specs.HeadState.{state_of};
ghost use Rattle.avm_model.specs.Pages.{sha_hashes, root_of};
ghost use Rattle.page_tree.specs.Nodes.{IsTree, at};
ghost use Rattle.state_replay.specs.Starting.{TellsState};

use avm_hash::Digest;
use avm_num::NoMemory;
use guest_machine::Machine;
use log_entry::{Content, Frame, content};
use page_tree::Tree;
use rv32_mem::Ram;
use snap_state::machine_of;
use std::alloc::Global;

/// The machine of a head and as many pages as it says, and the tree of its pages.
pub fn machine_from(alloc: Global, head: &[u8], pages: &[u8]) -> Result<(Machine, Tree), NoMemory>
    requires { TellsState head.now pages.now }
    ensures state { IfOk result (λ p. (h : HeadData) → head_of head.now ≡ Some h → p.0.state ≡ state_of h pages.now) }
    ensures tree { IfOk result (λ p. IsTree sha_hashes p.0.state.ram (length p.0.dirty) p.1) }
    ensures root { IfOk result (λ p. at p.1 1 ≡ root_of sha_hashes p.0.state.ram) }
{
    let mut ram = Ram::new(alloc, (pages.len() / 4096) as u32)?;
    ram.put(0, pages);
    let tree = Tree::build(alloc, &mut ram)?;
    let machine = machine_of(alloc, head, ram)?;
    Ok((machine, tree))
}

fn has(machine: &Machine, root: &Digest, count: u64, told: &[u8; 32]) -> bool
    requires { root.now.0 ≡ root_lem machine.now.state }
    ensures { result ≡ (count == machine.now.state.count && bytes_eq told.now (root_lem machine.now.state)) }
{
    count == machine.count() && root.0 == *told
}

/// Whether an entry is a BOOT or a SNAP with the count and the root of the machine's state; `root` is that root.
pub fn commits(machine: &Machine, root: &Digest, frame: &Frame<'_>) -> bool
    requires { root.now.0 ≡ root_lem machine.now.state }
    ensures { result ≡ commits_to machine.now.state (content_at frame.now.kind frame.now.content.now) }
{
    match content(frame) {
        Some(Content::Boot { count, root: told }) => has(machine, root, count, &told),
        Some(Content::Snap { count, root: told }) => has(machine, root, count, &told),
        _ => false,
    }
}
