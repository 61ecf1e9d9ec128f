//! A disk in memory that tells nothing of its content, as a real one.
ghost use Rattle.std.specs.Prelude.{◌≡◌, ◌≤◌, ◌+◌, None, IfOk, length};
ghost use Rattle.avm_outside.specs.Outside.{Rises};
ghost use Rattle.avm_outside.specs.Disk.{Follows, Torn};
ghost use Rattle.avm_outside.specs.MemDisks.{disk_bytes};

use avm_num::NoMemory;
use avm_outside::{Disk, Failed, MemDisk};
use std::alloc::{AllocError, Global};

/// The disk, its length, and how often a call has failed.
#[derive(Drop)]
pub struct Untold {
    pub disk: MemDisk,
    len: u64,
    faults: u64,
    ghost size: { len ≡ length (disk_bytes disk) },
}

impl Untold {
    /// A disk that holds these bytes, of which the calls of these numbers fail, counted from 3 on.
    pub fn new(alloc: Global, bytes: &[u8], fails: &[u64]) -> Result<Untold, AllocError> {
        let Ok(disk) = MemDisk::new(alloc, Vec::from_slice(alloc, fails)?) else {
            return Err(AllocError);
        };
        let mut untold = Untold {
            disk,
            len: 0,
            faults: 0,
        };
        if bytes.len() > 1 << 20 || untold.write_at(0, bytes).is_err() || untold.sync().is_err() {
            return Err(AllocError);
        }
        Ok(untold)
    }

    /// A disk that holds an image of this one: that of a crash after so many calls, with the least or the greatest length, and
    /// this byte in each free place.
    pub fn crashed(
        &self,
        alloc: Global,
        calls: usize,
        long: bool,
        fill: u8,
    ) -> Result<Untold, AllocError> {
        if calls > self.disk.calls() {
            return Err(AllocError);
        }
        let least = self.disk.least(calls);
        let most = self.disk.most(calls);
        let len = if long { most } else { least };
        if least > len || len > most {
            return Err(AllocError);
        }
        match self.disk.image(alloc, calls, len, &[fill; 4096]) {
            Ok(image) => Untold::new(alloc, &image, &[]),
            Err(NoMemory) => Err(AllocError),
        }
    }

    fn fail(&mut self) -> Failed
        ensures { Rises self.old.faults self.new.faults }
    {
        self.faults = self.faults.saturating_add(1);
        Failed
    }
}

impl Disk for Untold {
    ghost faults = { λ d. d.faults };

    ghost seen = { λ _. None };

    ghost may_leave = { λ _ _. Unit {0} };

    ghost moment = { λ _. 0 };

    ghost left_since = { λ _ _ _. Unit {0} };

    ghost counts_now = { λ _ _ _ _ _. tt };

    ghost only_now = { λ _ _ _. tt };

    ghost tells_bytes = { λ _. tt };

    fn len(&mut self) -> Result<u64, Failed> {
        match self.disk.len() {
            Ok(len) => Ok(len),
            Err(Failed) => Err(self.fail()),
        }
    }

    fn read_at(&mut self, at: u64, buf: &mut [u8]) -> Result<usize, Failed> {
        match self.disk.read_at(at, buf) {
            Ok(n) => Ok(n),
            Err(Failed) => Err(self.fail()),
        }
    }

    fn write_at(&mut self, at: u64, bytes: &[u8]) -> Result<(), Failed> {
        if at > self.len {
            return Err(self.fail());
        }
        match self.disk.write_at(at, bytes) {
            Ok(()) => {
                self.len = self.len.max(at + bytes.len() as u64);
                Ok(())
            }
            Err(Failed) => Err(self.fail()),
        }
    }

    fn sync(&mut self) -> Result<(), Failed> {
        match self.disk.sync() {
            Ok(()) => Ok(()),
            Err(Failed) => Err(self.fail()),
        }
    }
}
