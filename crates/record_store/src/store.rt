//! Saving a batch.

ghost use Rattle.std.specs.Prelude.{◌≡◌, ◌≤◌, ◌<◌, ℕ, [], false, option_map, IfOk, IfSome, OnOk};
ghost use Rattle.avm_outside.specs.Outside.{BothTold};
ghost use Rattle.journal_model.specs.Header.{most_leaves};
ghost use Rattle.journal_model.specs.Journal.{JournalData, longest_record};
ghost use Rattle.journal_model.specs.Part.{signing};
ghost use Rattle.journal_model.specs.Standing.{signed_from};
ghost use Rattle.jrnl_store.specs.Kept.{kept, ticket_view};
ghost use Rattle.jrnl_store.specs.Own.{IsOwn};
ghost use Rattle.record_batch.specs.Batch.{batch_size};
ghost use Rattle.record_model.specs.Recording.{is_none};
ghost use Rattle.record_parts.specs.Ends.{SavedAs};
ghost use Rattle.record_parts.specs.Outs.{first_of};
ghost use Rattle.record_store.specs.Open.{IsOpen, IsSame};
ghost use Rattle.record_store.specs.Saving.{Holds, SaveCounts, StandsStill, WhereUnsaved, saved_to, why_of};

use avm_outside::Disk;
use jrnl_store::{Journal, Stop, StoreFault, Ticket};
use record_batch::Batch;

/// A journal, and the batch that goes on from it.
#[derive(Drop)]
pub struct Store {
    pub journal: Journal,
    pub batch: Batch,
}

/// Why a recorder stops whose commit was refused.
fn why(fault: StoreFault) -> Stop
    ensures { result ≡ why_of fault }
{
    match fault {
        StoreFault::LeavesSpent => Stop::LeavesSpent,
        StoreFault::Full => Stop::Full,
        StoreFault::Ended(stop) => stop,
        _ => Stop::DiskFault,
    }
}

impl Store {
    /// Saves the batch, which is then empty. Its ticket is that of the item which signs. Where this is refused, the batch
    /// stays, and the journal has stopped; by `LeavesSpent` and `Full` the disk isn't touched, and stands for the journal as
    /// before. It takes no memory.
    pub fn save<D: Disk>(&mut self, disk: &mut D) -> Result<Option<Ticket>, Stop>
        requires own { IfSome (D.seen disk.old) (λ was. (j : JournalData) × IsOwn (kept self.old.journal) (D.may_leave disk.old) was j) }
        requires open { IsOpen (kept self.old.journal) self.old.batch }
        requires some { is_none self.old.batch.parts ≡ false }
        requires one { signing self.old.batch.parts ≤ 1 }
        requires few { batch_size self.old.batch ≤ longest_record }
        ensures saved { BothTold (D.seen disk.old) (D.seen disk.new) (λ was now. (j : JournalData) → IsOwn (kept self.old.journal) (D.may_leave disk.old) was j
            → Holds D.moment D.left_since disk.old disk.new (kept self.new.journal) (D.may_leave disk.new) now j (saved_to j self.old.batch.parts result) self.old.batch.parts
            × ((n m : ℕ) → SavedAs j self.old.batch.parts (saved_to j self.old.batch.parts result) self.new.batch.parts (record { disk_before = D.faults disk.old; disk_after = D.faults disk.new; outlet_before = n; outlet_after = m }) result)) }
        ensures open { OnOk result (IsOpen (kept self.new.journal) self.new.batch) }
        ensures empty { OnOk result (self.new.batch.parts ≡ []) }
        ensures next { self.new.batch.next ≡ self.old.batch.next }
        ensures same { IsSame (kept self.old.journal) (kept self.new.journal) }
        ensures ticket { IfOk result (λ t. option_map ticket_view t ≡ first_of (signed_from (kept self.old.journal).standing self.old.batch.parts)) }
        ensures leaf { IfOk result (λ t. IfSome t (λ ticket. (ticket_view ticket).leaf < most_leaves (kept self.old.journal).key)) }
        ensures unsaved { WhereUnsaved result (StandsStill (kept self.new.journal) (D.may_leave disk.new) (D.seen disk.new)) }
        ensures faults { SaveCounts (D.faults disk.old) (D.faults disk.new) result }
    {
        match self.journal.commit(disk, self.batch.room()) {
            Ok(ticket) => {
                self.batch.clear();
                Ok(ticket)
            }
            Err(fault) => Err(why(fault)),
        }
    }
}
