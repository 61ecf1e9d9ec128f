// Files of the system. They tell no content, and count each failed call.
ghost use Rattle.std.specs.Prelude.{◌≡◌, ◌≤◌, None, IfOk, IfSome, length};

use crate::counted::counted;
use avm_outside::{Failed, Files};
use std::fs::OpenOptions;
use std::io::{ErrorKind, Write};
use std::os::unix::fs::FileExt;
use std::{fs, io};

/// Files by their paths.
#[derive(Drop)]
pub struct RealFiles<'a> {
    rt: &'a HostRuntime,
    faults: u64,
}

impl<'a> RealFiles<'a> {
    /// The files of the system, with a count of 0.
    pub fn new(rt: &'a HostRuntime) -> Self
        ensures { result.faults ≡ 0 }
    {
        RealFiles { rt, faults: 0 }
    }
}

// Copies a piece of a file; None where the name isn't there.
fn read_piece(rt: &HostRuntime, name: &str, at: u64, buf: &mut [u8]) -> io::Result<Option<usize>>
    ensures { IfOk result (λ got. IfSome got (λ n. n ≤ length buf.old)) }
{
    match fs::open(rt, name) {
        Ok(file) => Ok(Some(file.read_at(buf, at)?)),
        Err(error) if error.kind() == ErrorKind::NotFound => Ok(None),
        Err(error) => Err(error),
    }
}

// Adds bytes to a file, and makes it if it isn't there.
fn add(rt: &HostRuntime, name: &str, bytes: &[u8]) -> io::Result<()> {
    let mut file = OpenOptions::new().append(true).create(true).open(rt, name)?;
    file.write_all(bytes)
}

impl<'a> Files for RealFiles<'a> {
    ghost faults = { λ f. f.faults };

    ghost file = { λ _ _. None };

    fn read_at(&mut self, name: &str, at: u64, buf: &mut [u8]) -> Result<Option<usize>, Failed> {
        match read_piece(self.rt, name, at, buf) {
            Ok(got) => Ok(got),
            Err(_) => Err(counted(&mut self.faults)),
        }
    }

    fn create(&mut self, name: &str) -> Result<(), Failed> {
        match fs::create(self.rt, name) {
            Ok(_) => Ok(()),
            Err(_) => Err(counted(&mut self.faults)),
        }
    }

    fn append(&mut self, name: &str, bytes: &[u8]) -> Result<(), Failed> {
        match add(self.rt, name, bytes) {
            Ok(()) => Ok(()),
            Err(_) => Err(counted(&mut self.faults)),
        }
    }
}

#[cfg(test)]
mod tests {
    use super::*;

    #[test]
    fn a_file_is_made_appended_and_read(rt: HostRuntime) {
        let mut files = RealFiles::new(&rt);
        let mut buf = [0u8; 8];
        assert!(rt; matches!(files.read_at("a", 0, &mut buf), Ok(None)));
        assert!(rt; files.append("a", b"hello").is_ok());
        assert!(rt; files.append("a", b" you").is_ok());
        assert!(rt; matches!(files.read_at("a", 2, &mut buf), Ok(Some(7))));
        assert_eq!(rt; &buf[..7], b"llo you".as_slice());
        assert!(rt; files.create("a").is_ok());
        assert!(rt; matches!(files.read_at("a", 0, &mut buf), Ok(Some(0))));
        assert!(rt; files.read_at(".", 0, &mut buf).is_err());
        assert!(rt; files.append(".", b"hello").is_err());
        assert_eq!(rt; files.faults, 2);
    }
}
