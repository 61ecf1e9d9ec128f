// The disk that isn't there.
ghost use Rattle.std.specs.Prelude.{◌≡◌, None, IsErr, length};
ghost use Rattle.avm_outside.specs.Outside.{Rises};
ghost use Rattle.avm_outside.specs.Disk.{Follows, Torn};
ghost use Rattle.avm_outside.specs.Mem.{no_disk_faults};

use crate::{Disk, Failed};

/// A disk that isn't there, and tells nothing: each call fails and raises the count.
#[derive(Drop)]
pub struct NoDisk {
    faults: u64,
}

impl NoDisk {
    /// The absent disk, with a count of 0.
    pub fn new() -> NoDisk
        ensures { no_disk_faults result ≡ 0 }
    {
        NoDisk { faults: 0 }
    }

    // Counts a fault.
    fn fail(&mut self) -> Failed
        ensures { Rises self.old.faults self.new.faults }
    {
        self.faults = self.faults.saturating_add(1);
        Failed
    }
}

impl Disk for NoDisk {
    ghost faults = { λ d. d.faults };

    ghost seen = { λ _. None };

    ghost may_leave = { λ _ _. Unit {0} };

    ghost moment = { λ _. 0 };

    ghost left_since = { λ _ _ _. Unit {0} };

    ghost counts_now = { λ _ _ _ _ _. tt };

    ghost only_now = { λ _ _ _. tt };

    ghost tells_bytes = { λ _. tt };

    fn len(&mut self) -> Result<u64, Failed>
        ensures fails { IsErr result }
        ensures faults { Rises (no_disk_faults self.old) (no_disk_faults self.new) }
    {
        Err(self.fail())
    }

    fn read_at(&mut self, _at: u64, _buf: &mut [u8]) -> Result<usize, Failed>
        ensures fails { IsErr result }
        ensures faults { Rises (no_disk_faults self.old) (no_disk_faults self.new) }
    {
        Err(self.fail())
    }

    fn write_at(&mut self, _at: u64, _bytes: &[u8]) -> Result<(), Failed>
        ensures fails { IsErr result }
        ensures crash { Follows (Torn _at (length _bytes.now)) (λ _. Unit {0}) (λ _. Unit {0}) }
        ensures faults { Rises (no_disk_faults self.old) (no_disk_faults self.new) }
    {
        Err(self.fail())
    }

    fn sync(&mut self) -> Result<(), Failed>
        ensures fails { IsErr result }
        ensures faults { Rises (no_disk_faults self.old) (no_disk_faults self.new) }
    {
        let failed = self.fail();
        Err(failed)
    }
}
