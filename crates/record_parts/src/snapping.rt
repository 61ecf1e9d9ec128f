//! A snapshot as an entry of the batch, with its keep.

ghost use Rattle.std.specs.Prelude.{◌≡◌, ◌+◌, ◌*◌, ◌≤◌, ◌<◌, ◌^◌, length, List, [], ◌∷◌};
ghost use Rattle.avm_model.specs.Head.{head_bytes};
ghost use Rattle.avm_model.specs.HeadState.{data_of};
ghost use Rattle.avm_model.specs.Machine.{Snap};
ghost use Rattle.avm_model.specs.Parts.{IsOrdinal};
ghost use Rattle.avm_model.specs.Reference.{made_of};
ghost use Rattle.avm_model.specs.Root.{root as root_lem};
ghost use Rattle.honest_model.specs.KeepPages.{KeepsMarked};
ghost use Rattle.journal_model.specs.Part.{longest_head};
ghost use Rattle.record_batch.specs.Batch.{batch_size, HasPlace};
ghost use Rattle.record_parts.specs.Outs.{kept_pages, pages_in, with_made};

use avm_hash::Digest;
use guest_machine::Machine;
use log_entry::Content;
use record_batch::Batch;

/// Adds the entry of a snapshot and its keep: the machine's head, and the pages of its RAM that have a mark.
pub fn put_snap(batch: &mut Batch, machine: &Machine, root: &Digest, head: &[u8], marks: &[bool])
    requires root { root.now.0 ≡ root_lem machine.now.state }
    requires head { head.now ≡ head_bytes (data_of machine.now.state) }
    requires short { length head.now ≤ longest_head }
    requires marks { length marks.now ≡ length machine.now.dirty }
    requires count { machine.now.state.count < 2 ^ 62 }
    requires number { IsOrdinal batch.old.next }
    requires place { HasPlace (71 + length head.now + 4100 * length marks.now) batch.old }
    ensures value { batch.new ≡ with_made batch.old machine.now.state (kept_pages marks.now machine.now.state.ram) (made_of machine.now.state Snap ∷ []) }
    ensures size { batch_size batch.new ≤ batch_size batch.old + (71 + length head.now + 4100 * length marks.now) }
    ensures marked { KeepsMarked machine.now.state marks.now (pages_in (kept_pages marks.now machine.now.state.ram)) }
{
    batch.add(Content::Snap {
        count: machine.count(),
        root: root.0,
    });
    batch.add_keep(head, machine.ram(), marks);
}
