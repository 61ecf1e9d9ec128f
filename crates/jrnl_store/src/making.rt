//! A new journal on an empty disk.

ghost use Rattle.std.specs.Prelude.{◌≡◌, ◌+◌, ◌*◌, ◌^◌, ◌≤◌, ◌<◌, ◌++◌, ◌∷◌, [], true, is_some, None, Some, length, take, List, ℕ, IfSome, IfOk, OnOk};
ghost use Rattle.avm_outside.specs.Outside.{BothTold, Counts};
ghost use Rattle.avm_outside.specs.Moments.{IsShut};
ghost use Rattle.journal_model.specs.Part.{longest_head};
ghost use Rattle.journal_model.specs.Header.{is_store_key, pages_in};
ghost use Rattle.journal_model.specs.Journal.{longest_record};
ghost use Rattle.journal_model.specs.Standing.{continued as continued_lem};
ghost use Rattle.jrnl_part.specs.First.{new_journal};
ghost use Rattle.jrnl_part.specs.Views.{bounds_view, standing_view};
ghost use Rattle.jrnl_store.specs.Writing.{IsWritten, Each, staged};

use crate::fault::StoreFault;
use crate::journal::{Journal, zeros};
use avm_hash::Digest;
use avm_num::Room;
use avm_outside::{Disk, Failed, write_kept};
use jrnl_part::{continued, new_start, put_boot, put_header};
use std::alloc::Global;

/// Writes a header and a closed gate behind it on an empty disk, and syncs.
fn write_header<D: Disk>(disk: &mut D, front: &[u8], pages: &[u8]) -> Result<(), Failed>
    requires empty { IfSome (D.seen disk.old) (λ was. was ≡ []) }
    requires fits { length front.now + length pages.now < 2 ^ 31 }
    ensures written { OnOk result (BothTold (D.seen disk.old) (D.seen disk.new) (λ was now. (now ≡ front.now ++ pages.now ++ 0 ∷ []) × Each (D.may_leave disk.new) (λ c. c ≡ now))) }
    ensures faults { Counts (D.faults disk.old) (D.faults disk.new) result }
{
    disk.write_at(0, front)?;
    disk.write_at(front.len() as u64, pages)?;
    write_kept(disk, (front.len() + pages.len()) as u64, &[0])
}

impl Journal {
    ghost use Rattle.jrnl_store.specs.Kept.{kept};
    ghost use Rattle.jrnl_store.specs.Own.{IsOwn, CountsFaults};
    ghost use Rattle.jrnl_store.specs.Made.{MakeCause};

    /// Writes the first record, and opens its gate.
    fn begin<D: Disk>(&mut self, disk: &mut D, items: &[u8]) -> Result<(), Failed>
        requires few { length items.now ≤ longest_record }
        requires within { IfSome (D.seen disk.old) (λ was. self.old.gate < length was) }
        requires place { self.old.gate + 5 + length items.now < 2 ^ 30 }
        requires fits { is_some (continued_lem (bounds_view self.old.bounds) (standing_view self.old.stand) items.now) ≡ true }
        ensures kept { OnOk result ((continued_lem (bounds_view self.old.bounds) (standing_view self.old.stand) items.now ≡ Some (standing_view self.new.stand))
            × (kept self.new ≡ record (kept self.old) { gate = self.old.gate + 5 + length items.now; standing = standing_view self.new.stand })) }
        ensures written { OnOk result (BothTold (D.seen disk.old) (D.seen disk.new) (λ was now.
            (front : List ℕ) → length front ≡ self.old.gate → IsShut front was → IsWritten front (staged items.now) now × Each (D.may_leave disk.new) (λ c. c ≡ now))) }
        ensures faults { Counts (D.faults disk.old) (D.faults disk.new) result }
    {
        let Some(stand) = continued(&self.bounds, &self.stand, items) else {
            unreachable!()
        };
        self.append(disk, items)?;
        self.goes_behind(stand, items.len());
        Ok(())
    }

    /// Makes a journal on an empty disk: the header of the state that this head and these pages are, and BOOT with this root.
    /// Once it is made, a read and each image that a crash may leave stand for it.
    pub fn make<D: Disk>(
        alloc: Global,
        disk: &mut D,
        key: &[u8; 56],
        head: &[u8],
        pages: &[u8],
        root: &Digest,
    ) -> Result<Journal, StoreFault>
        requires key { is_store_key key.now ≡ true }
        requires head { length head.now ≤ longest_head }
        requires pages { (n : ℕ) × (pages_in head.now ≡ Some n) × (n ≤ 4096) × (length pages.now ≡ 4096 * n) }
        ensures made { IfOk result (λ v. BothTold (D.seen disk.old) (D.seen disk.new) (λ was now. IsOwn (kept v) (D.may_leave disk.new) now (new_journal key.now head.now pages.now root.now.0))) }
        ensures open { IfOk result (λ v. (kept v).stop ≡ None) }
        ensures cause { MakeCause (D.seen disk.old) (D.seen disk.new) result }
        ensures faults { CountsFaults (D.faults disk.old) (D.faults disk.new) result }
    {
        match disk.len() {
            Ok(0) => {}
            Ok(_) => return Err(StoreFault::NotEmpty),
            Err(Failed) => return Err(StoreFault::DiskFault),
        }
        let Ok(mut text) = Room::new(alloc, 1 << 15) else {
            return Err(StoreFault::NoMemory);
        };
        let Some(buffer) = zeros(alloc, (1 << 25) + 5) else {
            return Err(StoreFault::NoMemory);
        };
        put_header(&mut text, key, head);
        let Ok(()) = write_header(disk, text.bytes(), pages) else {
            return Err(StoreFault::DiskFault);
        };
        let start = new_start(*key, head, pages, text.bytes().len() + pages.len());
        let mut journal = Journal::begun(start, buffer);
        text.clear();
        let bytes = root.0;
        put_boot(&mut text, &Digest(bytes));
        match journal.begin(disk, text.bytes()) {
            Ok(()) => Ok(journal),
            Err(Failed) => Err(StoreFault::DiskFault),
        }
    }
}
