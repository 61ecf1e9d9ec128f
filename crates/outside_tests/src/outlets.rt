//! What stands in the three files, as a person writes it, and what a failed call leaves.

use avm_num::NoMemory;
use avm_outside::{MemFiles, Outlet};
use file_outlet::FileOutlet;
use std::alloc::{AllocError, Global};

fn files(alloc: Global, fails: &[u64]) -> Result<MemFiles, AllocError> {
    match MemFiles::new(alloc, Vec::from_slice(alloc, fails)?) {
        Ok(files) => Ok(files),
        Err(NoMemory) => Err(AllocError),
    }
}

#[test]
fn pieces_are_appended(rt: HostRuntime) -> Result<(), AllocError> {
    let mut files = files(rt.alloc(), &[4])?;
    let mut outlet = FileOutlet::new(&mut files, "p", "c", "a");
    assert!(rt; outlet.packet(258, b"one").is_ok());
    assert!(rt; outlet.console(b"a line\n").is_ok());
    assert!(rt; outlet.authenticator(b"sealed").is_ok());
    assert!(rt; outlet.console(b"lost").is_err());
    assert!(rt; outlet.packet(1, b"").is_ok());
    assert!(rt;
        files.bytes("p") == Some(b"\0\0\x01\x02\0\0\0\x03one\0\0\0\x01\0\0\0\0".as_slice())
    );
    assert!(rt; files.bytes("c") == Some(b"a line\n".as_slice()));
    assert!(rt; files.bytes("a") == Some(b"sealed".as_slice()));
    Ok(())
}
