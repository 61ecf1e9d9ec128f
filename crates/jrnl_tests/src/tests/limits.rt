//! A disk of 2^30 bytes and more that has few of them.
ghost use Rattle.std.specs.Prelude.{◌≡◌, ◌≤◌, ◌+◌, None, length};
ghost use Rattle.avm_outside.specs.Outside.{Rises};
ghost use Rattle.avm_outside.specs.Disk.{Follows, Torn};

use crate::tests::texts::{BOOT, ROOT, header, joined};
use avm_outside::{Disk, Failed};
use jrnl_store::{Journal, StoreFault};
use std::alloc::AllocError;

/// Tells a length, and has the bytes in front alone.
#[derive(Drop)]
struct Hollow {
    front: Vec<u8>,
    len: u64,
    faults: u64,
}

impl Disk for Hollow {
    ghost faults = { λ d. d.faults };

    ghost seen = { λ _. None };

    ghost may_leave = { λ _ _. Unit {0} };

    ghost moment = { λ _. 0 };

    ghost left_since = { λ _ _ _. Unit {0} };

    ghost counts_now = { λ _ _ _ _ _. tt };

    ghost only_now = { λ _ _ _. tt };

    ghost tells_bytes = { λ _. tt };

    fn len(&mut self) -> Result<u64, Failed> {
        Ok(self.len)
    }

    fn read_at(&mut self, at: u64, buf: &mut [u8]) -> Result<usize, Failed> {
        if at >= self.front.len() as u64 {
            return Ok(buf.len());
        }
        let rest = &self.front[at as usize..];
        let n = rest.len().min(buf.len());
        buf[..n].copy_from_slice(&rest[..n]);
        Ok(buf.len())
    }

    fn write_at(&mut self, _at: u64, _bytes: &[u8]) -> Result<(), Failed> {
        self.faults = self.faults.saturating_add(1);
        Err(Failed)
    }

    fn sync(&mut self) -> Result<(), Failed> {
        Ok(())
    }
}

/// The length that stands behind the gate, the disk's, and whether the store is damaged there.
const LONG: [([u8; 4], u64, bool); 5] = [
    ([0, 0, 0, 54], 1 << 30, false),
    ([0, 0, 0, 54], 1 << 62, false),
    ([2, 0, 0, 0], 1 << 30, true),
    ([2, 0, 0, 1], 1 << 30, true),
    ([255, 255, 255, 255], 1 << 62, true),
];

#[test]
fn a_long_disk_is_opened(rt: HostRuntime) -> Result<(), AllocError> {
    let alloc = rt.alloc();
    for (size, len, is_damaged) in LONG {
        let header = header(alloc)?;
        let front = joined(alloc, &[header.as_slice(), &[1], &size, &BOOT, &ROOT, &[0]])?;
        let mut disk = Hollow {
            front,
            len,
            faults: 0,
        };
        let damaged = matches!(
            Journal::attach(alloc, &mut disk),
            Err(StoreFault::Damaged(4220))
        );
        assert!(rt; damaged == is_damaged, "{size:?} {len}");
    }
    let mut nothing = Hollow {
        front: joined(alloc, &[])?,
        len: 1 << 30,
        faults: 0,
    };
    let found = Journal::attach(alloc, &mut nothing);
    assert!(rt; matches!(found, Err(StoreFault::NoStore)));
    Ok(())
}
