//! What a journal shows of itself, and of its header on the disk.

ghost use Rattle.std.specs.Prelude.{◌≡◌, ◌+◌, ◌-◌, ◌*◌, ◌^◌, ◌≤◌, ◌<◌, length, take, option_map, unwrap_or, Option, IfSome, IfOk, IfErr, OnOk, OnErr, List, ℕ, nat_eq, true};
ghost use Rattle.avm_num.specs.Room.{with_bytes, left};
ghost use Rattle.journal_model.specs.Part.{longest_head};
ghost use Rattle.journal_model.specs.Header.{most_leaves};
ghost use Rattle.journal_model.specs.Journal.{JournalData};

use crate::fault::StoreFault;
use crate::items::last_ticket;
use crate::journal::Journal;
use crate::ticket::Ticket;
use avm_hash::Digest;
use avm_num::Room;
use avm_outside::{Disk, Failed};
use rv32_mem::Ram;

impl Journal {
    ghost use Rattle.jrnl_store.specs.Kept.{kept, ticket_view};
    ghost use Rattle.jrnl_store.specs.Made.{sealed_in};
    ghost use Rattle.jrnl_store.specs.Own.{IsAt, CountsFaults};
    ghost use Rattle.jrnl_store.specs.Items.{disk_fault};

    /// The public key.
    pub fn key(&self) -> [u8; 56]
        ensures { result ≡ (kept self.now).key }
    {
        self.key
    }

    /// The number of the first entry.
    pub fn first(&self) -> u64
        ensures { result ≡ (kept self.now).bounds.first }
    {
        self.bounds.first
    }

    /// The chain's hash before the first entry.
    pub fn before(&self) -> Digest
        ensures { result.0 ≡ (kept self.now).before }
    {
        self.before
    }

    /// The header's page count.
    pub fn page_count(&self) -> u32
        ensures { result ≡ (kept self.now).bounds.pages }
    {
        self.bounds.pages
    }

    /// The number of the last entry. The next one is below 2^62.
    pub fn last(&self) -> u64
        ensures value { result + 1 ≡ (kept self.now).standing.next }
        ensures low { result + 1 < 2 ^ 62 }
    {
        self.stand.next - 1
    }

    /// The hash of the last entry.
    pub fn last_hash(&self) -> Digest
        ensures { result.0 ≡ (kept self.now).standing.hash }
    {
        self.stand.hash
    }

    /// How many leaves are used.
    pub fn bound(&self) -> u64
        ensures { result ≡ (kept self.now).standing.used }
    {
        self.stand.used
    }

    /// The last item's ticket, exactly where that item is a seal.
    pub fn sealed(&self) -> Option<Ticket>
        ensures value { option_map ticket_view result ≡ sealed_in (kept self.now).standing }
        ensures leaf { IfSome result (λ ticket. (ticket_view ticket).leaf < most_leaves self.now.key) }
    {
        if self.stand.sealed {
            last_ticket(&self.stand)
        } else {
            None
        }
    }

    /// The number of the mark; None exactly where the journal has none.
    pub fn retired(&self) -> Option<u64>
        ensures { result ≡ (kept self.now).mark }
    {
        self.mark
    }

    /// Adds the header's head to the bytes.
    pub fn head<D: Disk>(&mut self, disk: &mut D, out: &mut Room) -> Result<(), StoreFault>
        requires room { longest_head ≤ left out.old }
        ensures head { OnOk result (IfSome (D.seen disk.old) (λ was. (j : JournalData) → IsAt (kept self.old) was j → out.new ≡ with_bytes out.old j.header.head)) }
        ensures size { OnOk result ((text : List ℕ) × (length text ≡ (kept self.old).head_len) × (out.new ≡ with_bytes out.old text)) }
        ensures failed { OnErr result (out.new ≡ out.old) }
        ensures cause { IfErr result (λ e. e ≡ disk_fault) }
        ensures kept { kept self.new ≡ kept self.old }
        ensures same { D.seen disk.new ≡ D.seen disk.old }
        ensures crash { (c : List ℕ) → D.may_leave disk.new c → D.may_leave disk.old c }
        ensures later { D.moment disk.old ≤ D.moment disk.new }
        ensures moments { (t : ℕ) (c : List ℕ) → t ≤ D.moment disk.old → D.left_since disk.new t c → D.left_since disk.old t c }
        ensures faults { CountsFaults (D.faults disk.old) (D.faults disk.new) result }
    {
        let size = self.head_len as usize;
        let Ok(()) = self.fill(disk, 113, size) else {
            return Err(StoreFault::DiskFault);
        };
        out.put(&self.buffer[..size]);
        Ok(())
    }

    /// Sets the pages of a RAM to the header's.
    pub fn pages<D: Disk>(&mut self, disk: &mut D, ram: &mut Ram) -> Result<(), StoreFault>
        requires count { length ram.old.dirty ≡ (kept self.old).bounds.pages }
        ensures pages { OnOk result (IfSome (D.seen disk.old) (λ was. (j : JournalData) → IsAt (kept self.old) was j → ram.new.bytes ≡ j.header.pages)) }
        ensures count { length ram.new.dirty ≡ length ram.old.dirty }
        ensures failed { OnErr result (ram.new ≡ ram.old) }
        ensures cause { IfErr result (λ e. e ≡ disk_fault) }
        ensures kept { kept self.new ≡ kept self.old }
        ensures same { D.seen disk.new ≡ D.seen disk.old }
        ensures crash { (c : List ℕ) → D.may_leave disk.new c → D.may_leave disk.old c }
        ensures later { D.moment disk.old ≤ D.moment disk.new }
        ensures moments { (t : ℕ) (c : List ℕ) → t ≤ D.moment disk.old → D.left_since disk.new t c → D.left_since disk.old t c }
        ensures faults { CountsFaults (D.faults disk.old) (D.faults disk.new) result }
    {
        let at = 113 + self.head_len as u64;
        let size = 4096 * ram.pages() as usize;
        let Ok(()) = self.fill(disk, at, size) else {
            return Err(StoreFault::DiskFault);
        };
        ram.put(0, &self.buffer[..size]);
        Ok(())
    }
}
