//! The mark that retires a store.

ghost use Rattle.std.specs.Prelude.{◌≡◌, ◌+◌, ◌<◌, ◌^◌, None, true, List, ℕ, IfSome, OnOk};
ghost use Rattle.avm_outside.specs.Outside.{BothTold};
ghost use Rattle.avm_outside.specs.Moments.{LeavesOnly};
ghost use Rattle.journal_model.specs.Journal.{JournalData, entries, has_snap};
ghost use Rattle.journal_model.specs.Spelling.{mark_items};

use crate::fault::{Stop, StoreFault};
use crate::journal::Journal;
use avm_outside::{Disk, Failed};

/// The items of a mark.
#[tactic(auto, unfolding(avm_num::specs::Lists::be))]
fn mark(at: u64) -> [u8; 9]
    ensures { result ≡ mark_items at }
{
    let mut items = [4; 9];
    items[1..].copy_from_slice(&at.to_be_bytes());
    items
}

impl Journal {
    ghost use Rattle.jrnl_store.specs.Kept.{kept};
    ghost use Rattle.jrnl_store.specs.Own.{IsOwn, WhereRefused, CountsFaults};
    ghost use Rattle.jrnl_store.specs.Retiring.{after_retire, StandsForMarked, RetireCause, RetireLeaves};

    /// Retires the store: adds the mark that names SNAP entry `at`, from which a base goes on, as a commit adds a record. A
    /// retired store takes no further batch.
    pub fn retire<D: Disk>(&mut self, disk: &mut D, at: u64) -> Result<(), StoreFault>
        requires own { IfSome (D.seen disk.old) (λ was. (j : JournalData) × IsOwn (kept self.old) (D.may_leave disk.old) was j × (has_snap at (entries j) ≡ true)) }
        requires unmarked { self.old.mark ≡ None }
        ensures cause { RetireCause (kept self.old) at result }
        ensures kept { RetireLeaves (kept self.old) at (kept self.new) result }
        ensures quiet { WhereRefused result (disk.new ≡ disk.old) }
        ensures own { BothTold (D.seen disk.old) (D.seen disk.new) (λ was now. (j : JournalData) → IsOwn (kept self.old) (D.may_leave disk.old) was j → has_snap at (entries j) ≡ true
            → IsOwn (kept self.new) (D.may_leave disk.new) now (after_retire j at result)) }
        ensures any_moment { IfSome (D.seen disk.old) (λ was. (j : JournalData) → IsOwn (kept self.old) (D.may_leave disk.old) was j → has_snap at (entries j) ≡ true → self.old.stop ≡ None
            → LeavesOnly D.moment D.left_since disk.old disk.new (StandsForMarked j at)) }
        ensures faults { CountsFaults (D.faults disk.old) (D.faults disk.new) result }
    {
        if let Some(stop) = self.stop {
            return Err(StoreFault::Ended(stop));
        }
        let items = mark(at);
        if self.is_full(&items) {
            self.stops(Stop::Full);
            return Err(StoreFault::Full);
        }
        match self.append(disk, &items) {
            Ok(()) => {
                self.is_marked(at, 9);
                Ok(())
            }
            Err(Failed) => {
                self.stops(Stop::DiskFault);
                Err(StoreFault::DiskFault)
            }
        }
    }
}
