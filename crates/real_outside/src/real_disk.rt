// A file of the system as a disk. It tells no content, and counts each failed call.
ghost use Rattle.std.specs.Prelude.{◌≡◌, ◌≤◌, None, IfOk, length};

use crate::counted::counted;
use avm_outside::{Disk, Failed};
use std::fs::{File, OpenOptions};
use std::io;
use std::io::ErrorKind;
use std::os::unix::fs::FileExt;

/// A file as a disk, or none.
#[derive(Drop)]
pub struct RealDisk {
    file: Option<File>,
    faults: u64,
}

impl RealDisk {
    /// A disk that isn't there: each call fails.
    pub fn absent() -> Self
        ensures { result.faults ≡ 0 }
    {
        RealDisk {
            file: None,
            faults: 0,
        }
    }

    /// Opens the file of a name for reading and writing, and makes it if asked; no disk where that fails.
    pub fn open(rt: &HostRuntime, name: &str, make: bool) -> Self
        ensures { result.faults ≡ 0 }
    {
        let opened = OpenOptions::new()
            .read(true)
            .write(true)
            .create(make)
            .open(rt, name);
        RealDisk {
            file: opened.ok(),
            faults: 0,
        }
    }
}

// The file of a disk that is there.
fn present(file: &Option<File>) -> io::Result<&File> {
    match file {
        Some(file) => Ok(file),
        None => Err(ErrorKind::NotFound.into()),
    }
}

fn file_len(file: &Option<File>) -> io::Result<u64> {
    Ok(present(file)?.metadata()?.len())
}

// Copies as many bytes as stand there: a read of the system may give fewer.
fn read_full(file: &Option<File>, at: u64, buf: &mut [u8]) -> io::Result<usize>
    ensures { IfOk result (λ n. n ≤ length buf.old) }
{
    let file = present(file)?;
    let mut done = 0usize;
    while done < buf.len() {
        let n = file.read_at(&mut buf[done..], at.wrapping_add(done as u64))?;
        if n == 0 {
            break;
        }
        done += n;
    }
    Ok(done)
}

fn write_full(file: &Option<File>, at: u64, bytes: &[u8]) -> io::Result<()> {
    present(file)?.write_all_at(bytes, at)
}

fn sync_file(file: &Option<File>) -> io::Result<()> {
    present(file)?.sync_all()
}

impl Disk for RealDisk {
    ghost faults = { λ d. d.faults };

    ghost seen = { λ _. None };

    ghost may_leave = { λ _ _. Unit {0} };

    ghost moment = { λ _. 0 };

    ghost left_since = { λ _ _ _. Unit {0} };

    ghost counts_now = { λ _ _ _ _ _. tt };

    ghost only_now = { λ _ _ _. tt };

    ghost tells_bytes = { λ _. tt };

    fn len(&mut self) -> Result<u64, Failed> {
        match file_len(&self.file) {
            Ok(n) => Ok(n),
            Err(_) => Err(counted(&mut self.faults)),
        }
    }

    fn read_at(&mut self, at: u64, buf: &mut [u8]) -> Result<usize, Failed> {
        match read_full(&self.file, at, buf) {
            Ok(n) => Ok(n),
            Err(_) => Err(counted(&mut self.faults)),
        }
    }

    fn write_at(&mut self, at: u64, bytes: &[u8]) -> Result<(), Failed> {
        match write_full(&self.file, at, bytes) {
            Ok(()) => Ok(()),
            Err(_) => Err(counted(&mut self.faults)),
        }
    }

    fn sync(&mut self) -> Result<(), Failed> {
        match sync_file(&self.file) {
            Ok(()) => Ok(()),
            Err(_) => Err(counted(&mut self.faults)),
        }
    }
}

#[cfg(test)]
mod tests {
    use super::*;

    #[test]
    fn a_disk_is_written_at_places(rt: HostRuntime) {
        let mut buf = [9u8; 8];
        assert!(rt; RealDisk::open(&rt, "d", false).len().is_err());
        let mut disk = RealDisk::open(&rt, "d", true);
        assert!(rt; matches!(disk.len(), Ok(0)));
        assert!(rt; disk.write_at(0, b"hello").is_ok());
        assert!(rt; disk.write_at(1, b"E").is_ok());
        assert!(rt; disk.sync().is_ok());
        let mut again = RealDisk::open(&rt, "d", true);
        assert!(rt; matches!(again.len(), Ok(5)));
        assert!(rt; matches!(again.read_at(1, &mut buf), Ok(4)));
        assert_eq!(rt; &buf[..4], b"Ello".as_slice());
        assert!(rt; matches!(again.read_at(5, &mut buf), Ok(0)));
        let mut none = RealDisk::absent();
        assert!(rt; none.write_at(0, b"a").is_err());
        assert!(rt; none.sync().is_err());
        assert_eq!(rt; none.faults, 2);
    }

    /// A file that is opened for reading alone, and a device that is full.
    #[test]
    fn a_disk_that_takes_no_bytes(rt: HostRuntime) {
        let mut buf = [9u8; 8];
        assert!(rt; RealDisk::open(&rt, "r", true).write_at(0, b"hello").is_ok());
        let mut kept = RealDisk {
            file: OpenOptions::new().read(true).open(&rt, "r").ok(),
            faults: 0,
        };
        assert!(rt; matches!(kept.read_at(0, &mut buf), Ok(5)));
        assert!(rt; kept.write_at(0, b"J").is_err());
        assert!(rt; kept.write_at(5, b"!").is_err());
        assert!(rt; matches!(kept.len(), Ok(5)));
        assert_eq!(rt; kept.faults, 2);
        let mut full = RealDisk::open(&rt, "/dev/full", false);
        assert!(rt; full.write_at(0, b"a").is_err());
        assert_eq!(rt; full.faults, 1);
    }
}
