// A disk in memory. It keeps its writes and syncs, of which a crash leaves what the stated disk allows.
ghost use Rattle.std.specs.Prelude.{◌≡◌, ◌≤◌, ◌<◌, ◌+◌, ◌-◌, ◌^◌, ◌++◌, ℕ, List, [], ◌∷◌, false, length, min, take, drop, Some, IfOk, OnOk, OnErr, option_map, unwrap_or, IsTrue, ◌↔◌, Contains};
ghost use Rattle.avm_num.specs.Bytes.{IsBytes};
ghost use Rattle.avm_outside.specs.Disk.{overwritten};
ghost use Rattle.avm_outside.specs.DiskLog.{IsRun, IsImage, image_of};

use crate::calls::Calls;
use crate::disk_event::{DiskEvent, overwrite};
use crate::states::{bytes_upto, fill, ranges_upto, reach_upto};
use crate::{Disk, Failed};
use avm_num::{NoMemory, are_bytes};
use std::alloc::{AllocError, Global};

/// A disk in memory. The calls whose numbers, counted from 1, are in its list fail; writes and syncs fail for want of memory
/// too. Its writes and syncs are kept, but for those that it refuses for want of memory.
#[derive(Drop)]
pub struct MemDisk {
    alloc: Global,
    // what it began with, all synced
    base: Vec<u8>,
    // what is read, once it was written
    changed: Option<Vec<u8>>,
    log: Vec<DiskEvent>,
    calls: Calls,
    ghost run: { IsRun base.items calls.calls log.items (unwrap_or (option_map (λ v. v.items) changed) base.items) },
    ghost bytes_are: { IsBytes (unwrap_or (option_map (λ v. v.items) changed) base.items) },
}

impl MemDisk {
    ghost use Rattle.avm_outside.specs.Outside.{Rises};
    ghost use Rattle.avm_outside.specs.Mem.{next_call};
    ghost use Rattle.avm_outside.specs.MemDisks.{disk_bytes, disk_fails, disk_calls, disk_faults, disk_state};

    /// No bytes, and the numbers of the calls that are to fail.
    pub fn new(alloc: Global, fails: Vec<u64>) -> Result<Self, NoMemory>
        ensures bytes { IfOk result (λ d. disk_bytes d ≡ []) }
        ensures state { IfOk result (λ d. (calls : ℕ) → IsImage (disk_state d calls) []) }
        ensures only { IfOk result (λ d. (calls : ℕ) (c : List ℕ) → IsImage (disk_state d calls) c → c ≡ []) }
        ensures fails { IfOk result (λ d. disk_fails d ≡ fails.items) }
        ensures calls { IfOk result (λ d. disk_calls d ≡ 0) }
        ensures faults { IfOk result (λ d. disk_faults d ≡ 0) }
    {
        Ok(MemDisk {
            alloc,
            base: Vec::new(alloc),
            changed: None,
            log: Vec::new(alloc),
            calls: Calls::new(fails),
        })
    }

    /// How many calls there were.
    pub fn calls(&self) -> usize
        ensures { result ≡ disk_calls self.now }
    {
        self.calls.calls as usize
    }

    /// The length at the last sync among the first calls, so many.
    pub fn least(&self, calls: usize) -> usize
        requires { calls ≤ disk_calls self.now }
        ensures { result ≡ (disk_state self.now calls).extent.least }
    {
        reach_upto(self.base.len(), &self.log, calls as u64).least
    }

    /// The greatest length that the first calls, so many, have reached since the last sync among them.
    pub fn most(&self, calls: usize) -> usize
        requires { calls ≤ disk_calls self.now }
        ensures { result ≡ (disk_state self.now calls).extent.most }
    {
        reach_upto(self.base.len(), &self.log, calls as u64).most
    }

    /// The image of a length that a crash leaves after the first calls, so many: its free bytes are taken from `choice` in
    /// ascending place, and are 0 where that ends. Each image that a crash may leave there comes from some choice.
    pub fn image(
        &self,
        alloc: Global,
        calls: usize,
        len: usize,
        choice: &[u8],
    ) -> Result<Vec<u8>, NoMemory>
        requires calls { calls ≤ disk_calls self.now }
        requires least { (disk_state self.now calls).extent.least ≤ len }
        requires most { len ≤ (disk_state self.now calls).extent.most }
        ensures value { IfOk result (λ image. image.items ≡ image_of (disk_state self.now calls) len choice.now) }
        ensures may_be_left { IfOk result (λ image. IsImage (disk_state self.now calls) image.items) }
        ensures each { (c : List ℕ) → IsImage (disk_state self.now calls) c → (picked : List ℕ) × (image_of (disk_state self.now calls) (length c) picked ≡ c) }
    {
        let least = self.least(calls);
        let calls = calls as u64;
        let Ok(bytes) = bytes_upto(alloc, &self.base, &self.log, calls) else {
            return Err(NoMemory);
        };
        let Ok(ranges) = ranges_upto(alloc, &self.log, calls) else {
            return Err(NoMemory);
        };
        match fill(alloc, &bytes, &ranges, least, len, choice) {
            Ok(image) => Ok(image),
            Err(AllocError) => Err(NoMemory),
        }
    }

    /// Makes these the disk's bytes, all synced. Its calls are counted from 0 again, and none is to fail. The count of faults
    /// stays.
    pub fn set_image(&mut self, image: Vec<u8>)
        ensures bytes { disk_bytes self.new ≡ image.items }
        ensures state { (calls : ℕ) (c : List ℕ) → IsImage (disk_state self.new calls) c → c ≡ image.items }
        ensures fails { disk_fails self.new ≡ [] }
        ensures calls { disk_calls self.new ≡ 0 }
        ensures faults { disk_faults self.new ≡ disk_faults self.old }
    {
        are_bytes(&image);
        let faults = self.calls.faults;
        *self = MemDisk {
            alloc: self.alloc,
            base: image,
            changed: None,
            log: Vec::new(self.alloc),
            calls: Calls {
                fails: Vec::new(self.alloc),
                calls: 0,
                faults,
            },
        };
    }

    // Counts a call, and says whether it fails by the list.
    fn count(&mut self) -> bool
        ensures base { self.new.base ≡ self.old.base }
        ensures changed { self.new.changed ≡ self.old.changed }
        ensures log { self.new.log ≡ self.old.log }
        ensures fails { disk_fails self.new ≡ disk_fails self.old }
        ensures calls { disk_calls self.new ≡ next_call (disk_calls self.old) }
        ensures rises { disk_calls self.old ≤ disk_calls self.new }
        ensures next { disk_calls self.old + 1 < 2 ^ 64 → disk_calls self.new ≡ disk_calls self.old + 1 }
        ensures listed { IsTrue result ↔ Contains (disk_fails self.old) (disk_calls self.new) }
        ensures faults { disk_faults self.new ≡ disk_faults self.old }
    {
        self.calls.count()
    }

    // Whether no number is left for a call that is kept.
    fn is_spent(&self) -> bool
        ensures { result ≡ false → disk_calls self.now + 1 < 2 ^ 64 }
    {
        self.calls.calls == u64::MAX
    }

    // Counts a fault.
    fn fail(&mut self) -> Failed
        ensures base { self.new.base ≡ self.old.base }
        ensures changed { self.new.changed ≡ self.old.changed }
        ensures log { self.new.log ≡ self.old.log }
        ensures fails { disk_fails self.new ≡ disk_fails self.old }
        ensures calls { disk_calls self.new ≡ disk_calls self.old }
        ensures faults { Rises (disk_faults self.old) (disk_faults self.new) }
    {
        self.calls.fail()
    }

    // The bytes that are read.
    fn bytes(&self) -> &[u8]
        ensures { result.now ≡ disk_bytes self.now }
    {
        match &self.changed {
            Some(now) => now,
            None => &self.base,
        }
    }
}

// Keeps a call.
fn keep(log: &mut Vec<DiskEvent>, event: DiskEvent) -> Result<(), AllocError>
    ensures log { OnOk result (log.new.items ≡ log.old.items ++ event ∷ []) }
    ensures same { OnErr result (log.new.items ≡ log.old.items) }
{
    log.push(event)?;
    Ok(())
}

// Takes the bytes to be changed: those that were changed before, or a copy of those with which the disk began.
fn taken(alloc: Global, base: &[u8], changed: &mut Option<Vec<u8>>) -> Result<Vec<u8>, AllocError>
    ensures bytes { IfOk result (λ now. now.items ≡ unwrap_or (option_map (λ v. v.items) changed.old) base.now) }
    ensures same { OnErr result (changed.new ≡ changed.old) }
{
    match changed.take() {
        Some(now) => Ok(now),
        None => Vec::from_slice(alloc, base),
    }
}

// Keeps a write and makes it to the bytes; where memory runs out, neither.
fn change(
    bytes: &mut Vec<u8>,
    log: &mut Vec<DiskEvent>,
    event: DiskEvent,
    at: usize,
    new: &[u8],
) -> Result<(), AllocError>
    ensures bytes { OnOk result (bytes.new.items ≡ overwritten at new.now bytes.old.items) }
    ensures log { OnOk result (log.new.items ≡ log.old.items ++ event ∷ []) }
    ensures same { OnErr result (bytes.new.items ≡ bytes.old.items) }
    ensures same_log { OnErr result (log.new.items ≡ log.old.items) }
{
    log.push(event)?;
    match overwrite(bytes, at, new) {
        Ok(()) => Ok(()),
        Err(error) => {
            log.pop();
            Err(error)
        }
    }
}

impl MemDisk {
    ghost use Rattle.avm_outside.specs.DiskLog.{KeptCall, wrote, IsQuiet};
    ghost use Rattle.avm_outside.specs.MemDisks.{disk_bytes, disk_calls};

    // Writes, and keeps the write under the number of the last call.
    fn write(&mut self, at: usize, bytes: &[u8]) -> Result<(), AllocError>
        requires fits { at + length bytes.now ≤ 2 ^ 31 }
        requires within { at ≤ length (disk_bytes self.old) }
        ensures base { self.new.base ≡ self.old.base }
        ensures calls { self.new.calls ≡ self.old.calls }
        ensures bytes { OnOk result (disk_bytes self.new ≡ overwritten at bytes.now (disk_bytes self.old)) }
        ensures log { OnOk result (self.new.log.items ≡ self.old.log.items ++ record { call = disk_calls self.old; change = wrote at bytes.now } ∷ []) }
        ensures same { OnErr result (disk_bytes self.new ≡ disk_bytes self.old) }
        ensures same_log { OnErr result (self.new.log.items ≡ self.old.log.items) }
    {
        let event = DiskEvent::wrote(self.alloc, self.calls.calls, at, bytes)?;
        let mut now = taken(self.alloc, &self.base, &mut self.changed)?;
        let result = change(&mut now, &mut self.log, event, at, bytes);
        are_bytes(&now);
        self.changed = Some(now);
        result
    }

    // Keeps a call that changes no byte, under the number of the last call.
    fn keep(&mut self, event: DiskEvent) -> Result<(), AllocError>
        requires number { event.call ≡ disk_calls self.old }
        requires quiet { IsQuiet event.change }
        ensures base { self.new.base ≡ self.old.base }
        ensures changed { self.new.changed ≡ self.old.changed }
        ensures calls { self.new.calls ≡ self.old.calls }
        ensures log { OnOk result (self.new.log.items ≡ self.old.log.items ++ event ∷ []) }
        ensures same_log { OnErr result (self.new.log.items ≡ self.old.log.items) }
    {
        keep(&mut self.log, event)
    }
}

impl Disk for MemDisk {
    ghost use Rattle.std.specs.Prelude.{IsErr, ◌⊎◌};
    ghost use Rattle.avm_outside.specs.Outside.{Counts};
    ghost use Rattle.avm_outside.specs.Disk.{Torn, Follows, Only, Elapses};
    ghost use Rattle.avm_outside.specs.DiskLog.{LeftSince, state_upto, state_after, wrote, missed, synced};
    ghost use Rattle.avm_outside.specs.DiskLaws.{now_counts, now_only};
    ghost use Rattle.avm_outside.specs.Mem.{next_call};
    ghost use Rattle.avm_outside.specs.MemDisks.{disk_bytes, disk_fails, disk_calls, disk_faults, disk_state, state_now};

    ghost faults = { λ d. d.calls.faults };

    ghost seen = { λ d. Some (unwrap_or (option_map (λ v. v.items) d.changed) d.base.items) };

    ghost may_leave = { λ d c. IsImage (state_upto d.base.items d.calls.calls d.log.items) c };

    ghost moment = { λ d. d.calls.calls };

    ghost left_since = { λ d t c. LeftSince d.base.items d.calls.calls d.log.items t c };

    ghost counts_now = { λ d t c le image. now_counts d.base.items d.calls.calls d.log.items t c le image };

    ghost only_now = { λ d c left. now_only d.base.items d.calls.calls d.log.items c left };

    ghost tells_bytes = { λ d. d.bytes_are };

    fn len(&mut self) -> Result<u64, Failed>
        ensures len { IfOk result (λ n. n ≡ length (disk_bytes self.old)) }
        ensures same { disk_bytes self.new ≡ disk_bytes self.old }
        ensures crash { (c : List ℕ) → IsImage (disk_state self.new (disk_calls self.new)) c → IsImage (disk_state self.old (disk_calls self.old)) c }
        ensures time { Elapses (disk_calls self.old) (disk_calls self.new) (LeftSince self.old.base.items (disk_calls self.old) self.old.log.items) (LeftSince self.new.base.items (disk_calls self.new) self.new.log.items) (IsImage (disk_state self.new (disk_calls self.new))) }
        ensures faults { Counts (disk_faults self.old) (disk_faults self.new) result }
        ensures listed { IsErr result ↔ Contains (disk_fails self.old) (disk_calls self.new) }
        ensures calls { disk_calls self.new ≡ next_call (disk_calls self.old) }
        ensures fails { disk_fails self.new ≡ disk_fails self.old }
        ensures state { state_now self.new ≡ state_now self.old }
        ensures past { (calls : ℕ) → calls ≤ disk_calls self.old → disk_state self.new calls ≡ disk_state self.old calls }
    {
        if self.count() {
            return Err(self.fail());
        }
        Ok(self.bytes().len() as u64)
    }

    fn read_at(&mut self, at: u64, buf: &mut [u8]) -> Result<usize, Failed>
        ensures count { IfOk result (λ n. n ≤ length buf.old) }
        ensures bytes { IfOk result (λ n. (n ≡ min (length buf.old) (length (disk_bytes self.old) - at)) × (buf.new ≡ take n (drop at (disk_bytes self.old)) ++ drop n buf.old)) }
        ensures same { disk_bytes self.new ≡ disk_bytes self.old }
        ensures crash { (c : List ℕ) → IsImage (disk_state self.new (disk_calls self.new)) c → IsImage (disk_state self.old (disk_calls self.old)) c }
        ensures time { Elapses (disk_calls self.old) (disk_calls self.new) (LeftSince self.old.base.items (disk_calls self.old) self.old.log.items) (LeftSince self.new.base.items (disk_calls self.new) self.new.log.items) (IsImage (disk_state self.new (disk_calls self.new))) }
        ensures faults { Counts (disk_faults self.old) (disk_faults self.new) result }
        ensures listed { IsErr result ↔ Contains (disk_fails self.old) (disk_calls self.new) }
        ensures calls { disk_calls self.new ≡ next_call (disk_calls self.old) }
        ensures fails { disk_fails self.new ≡ disk_fails self.old }
        ensures state { state_now self.new ≡ state_now self.old }
        ensures past { (calls : ℕ) → calls ≤ disk_calls self.old → disk_state self.new calls ≡ disk_state self.old calls }
    {
        if self.count() {
            return Err(self.fail());
        }
        let bytes = self.bytes();
        if at >= bytes.len() as u64 {
            return Ok(0);
        }
        let rest = &bytes[at as usize..];
        let n = rest.len().min(buf.len());
        buf[..n].copy_from_slice(&rest[..n]);
        Ok(n)
    }

    fn write_at(&mut self, at: u64, bytes: &[u8]) -> Result<(), Failed>
        requires fits { at + length bytes.now ≤ 2 ^ 31 }
        requires within { at ≤ length (disk_bytes self.old) }
        ensures written { OnOk result (disk_bytes self.new ≡ overwritten at bytes.now (disk_bytes self.old)) }
        ensures failed { OnErr result (disk_bytes self.new ≡ disk_bytes self.old) }
        ensures crash { Follows (Torn at (length bytes.now)) (IsImage (disk_state self.old (disk_calls self.old))) (IsImage (disk_state self.new (disk_calls self.new))) }
        ensures time { Elapses (disk_calls self.old) (disk_calls self.new) (LeftSince self.old.base.items (disk_calls self.old) self.old.log.items) (LeftSince self.new.base.items (disk_calls self.new) self.new.log.items) (IsImage (disk_state self.new (disk_calls self.new))) }
        ensures faults { Counts (disk_faults self.old) (disk_faults self.new) result }
        ensures listed { Contains (disk_fails self.old) (disk_calls self.new) → IsErr result }
        ensures calls { disk_calls self.new ≡ next_call (disk_calls self.old) }
        ensures fails { disk_fails self.new ≡ disk_fails self.old }
        ensures state { OnOk result (state_now self.new ≡ state_after (state_now self.old) (wrote at bytes.now)) }
        ensures missed { OnErr result (state_now self.new ≡ state_after (state_now self.old) (missed at (length bytes.now)) ⊎ state_now self.new ≡ state_now self.old) }
        ensures past { (calls : ℕ) → calls ≤ disk_calls self.old → disk_state self.new calls ≡ disk_state self.old calls }
    {
        if self.is_spent() {
            self.count();
            return Err(self.fail());
        }
        if self.count() {
            let missed = DiskEvent::missed(self.calls.calls, at as usize, bytes.len());
            return match self.keep(missed) {
                Ok(()) => Err(self.fail()),
                Err(_) => Err(self.fail()),
            };
        }
        match self.write(at as usize, bytes) {
            Ok(()) => Ok(()),
            Err(_) => Err(self.fail()),
        }
    }

    fn sync(&mut self) -> Result<(), Failed>
        ensures durable { OnOk result (Only (disk_bytes self.old) (IsImage (disk_state self.new (disk_calls self.new)))) }
        ensures same { disk_bytes self.new ≡ disk_bytes self.old }
        ensures crash { (c : List ℕ) → IsImage (disk_state self.new (disk_calls self.new)) c → IsImage (disk_state self.old (disk_calls self.old)) c }
        ensures time { Elapses (disk_calls self.old) (disk_calls self.new) (LeftSince self.old.base.items (disk_calls self.old) self.old.log.items) (LeftSince self.new.base.items (disk_calls self.new) self.new.log.items) (IsImage (disk_state self.new (disk_calls self.new))) }
        ensures faults { Counts (disk_faults self.old) (disk_faults self.new) result }
        ensures listed { Contains (disk_fails self.old) (disk_calls self.new) → IsErr result }
        ensures calls { disk_calls self.new ≡ next_call (disk_calls self.old) }
        ensures fails { disk_fails self.new ≡ disk_fails self.old }
        ensures state { OnOk result (state_now self.new ≡ state_after (state_now self.old) synced) }
        ensures unsynced { OnErr result (state_now self.new ≡ state_now self.old) }
        ensures past { (calls : ℕ) → calls ≤ disk_calls self.old → disk_state self.new calls ≡ disk_state self.old calls }
    {
        if self.is_spent() {
            self.count();
            return Err(self.fail());
        }
        if self.count() {
            return Err(self.fail());
        }
        let synced = DiskEvent::synced(self.calls.calls);
        match self.keep(synced) {
            Ok(()) => Ok(()),
            Err(_) => Err(self.fail()),
        }
    }
}
