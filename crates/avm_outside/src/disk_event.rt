// One call that a disk in memory keeps.
ghost use Rattle.std.specs.Prelude.{◌≡◌, ◌+◌, ◌^◌, ◌≤◌, length, map, IfOk, OnOk, OnErr};
ghost use Rattle.avm_outside.specs.Disk.{overwritten};
ghost use Rattle.avm_outside.specs.DiskLog.{wrote, missed, synced, read_after, ranges_after, extent_after};
ghost use Rattle.avm_outside.specs.DiskEvents.{range_view, extent_view};

use std::alloc::{AllocError, Global};
use std::marker::Model;

// What a call did: a write of these bytes, one of so many bytes that failed, or a sync.
#[derive(Drop)]
enum Change {
    Wrote(Vec<u8>),
    Missed(usize),
    Synced,
}

/// A place, and a number of bytes from it on.
#[derive(Clone, Copy)]
pub struct Range {
    pub at: usize,
    pub len: usize,
}

/// The length that is read, that at the last sync, and the greatest reached since.
#[derive(Clone, Copy)]
pub struct Reach {
    pub now: usize,
    pub least: usize,
    pub most: usize,
}

/// A call that is kept, with its number.
#[derive(Drop)]
pub struct DiskEvent {
    call: u64,
    at: usize,
    change: Change,
}

impl Model for DiskEvent {
    ghost use Rattle.std.specs.Prelude.{◌+◌, ◌^◌, ◌≤◌};
    ghost use Rattle.avm_outside.specs.DiskLog.{KeptCall};
    ghost use Rattle.avm_outside.specs.DiskEvents.{change_of, change_size};

    ghost Value = { KeptCall };

    ghost view = { λ e. record { call = e.call; change = change_of e.at e.change } };

    ghost invariant = { λ e. e.at + change_size e.change ≤ 2 ^ 31 };
}

// Writes over what is there, and past the end. A place past the end counts as the end.
pub fn overwrite(bytes: &mut Vec<u8>, at: usize, new: &[u8]) -> Result<(), AllocError>
    ensures ok { OnOk result (bytes.new.items ≡ overwritten at new.now bytes.old.items) }
    ensures err { OnErr result (bytes.new.items ≡ bytes.old.items) }
{
    let at = at.min(bytes.len());
    let inside = new.len().min(bytes.len() - at);
    let (over, behind) = new.split_at(inside);
    bytes.extend_from_slice(behind)?;
    bytes[at..at + inside].copy_from_slice(over);
    Ok(())
}

impl DiskEvent {
    /// A write, with a copy of its bytes.
    pub fn wrote(alloc: Global, call: u64, at: usize, bytes: &[u8]) -> Result<DiskEvent, AllocError>
        requires { at + length bytes.now ≤ 2 ^ 31 }
        ensures { IfOk result (λ e. e ≡ record { call = call; change = wrote at bytes.now }) }
    {
        let bytes = Vec::from_slice(alloc, bytes)?;
        Ok(DiskEvent {
            call,
            at,
            change: Change::Wrote(bytes),
        })
    }

    /// A write of so many bytes that failed.
    pub fn missed(call: u64, at: usize, len: usize) -> DiskEvent
        requires { at + len ≤ 2 ^ 31 }
        ensures { result ≡ record { call = call; change = missed at len } }
    {
        DiskEvent {
            call,
            at,
            change: Change::Missed(len),
        }
    }

    /// A sync.
    pub fn synced(call: u64) -> DiskEvent
        ensures { result ≡ record { call = call; change = synced } }
    {
        DiskEvent {
            call,
            at: 0,
            change: Change::Synced,
        }
    }

    /// The call's number.
    pub fn call(&self) -> u64
        ensures { result ≡ self.now.call }
    {
        self.call
    }

    /// Makes the change to the bytes that are read.
    pub fn apply(&self, bytes: &mut Vec<u8>) -> Result<(), AllocError>
        ensures { OnOk result (bytes.new.items ≡ read_after bytes.old.items self.now.change) }
    {
        match &self.change {
            Change::Wrote(new) => overwrite(bytes, self.at, new),
            Change::Missed(_) => Ok(()),
            Change::Synced => Ok(()),
        }
    }

    /// Keeps the range of a write; a sync leaves none.
    pub fn loosen(&self, ranges: &mut Vec<Range>) -> Result<(), AllocError>
        ensures { OnOk result (map range_view ranges.new.items ≡ ranges_after (map range_view ranges.old.items) self.now.change) }
    {
        let len = match &self.change {
            Change::Wrote(new) => new.len(),
            Change::Missed(len) => *len,
            Change::Synced => {
                ranges.clear();
                return Ok(());
            }
        };
        ranges.push(Range { at: self.at, len })?;
        Ok(())
    }

    /// The lengths after the change.
    pub fn reach(&self, before: Reach) -> Reach
        ensures { extent_view result ≡ extent_after (extent_view before) self.now.change }
    {
        match &self.change {
            Change::Wrote(new) => Reach {
                now: before.now.max(self.at + new.len()),
                least: before.least,
                most: before.most.max(self.at + new.len()),
            },
            Change::Missed(len) => Reach {
                now: before.now,
                least: before.least,
                most: before.most.max(self.at + *len),
            },
            Change::Synced => Reach {
                now: before.now,
                least: before.now,
                most: before.now,
            },
        }
    }
}
