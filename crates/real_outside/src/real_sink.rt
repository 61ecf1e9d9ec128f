// Standard output. It tells nothing, and counts each failed write.
ghost use Rattle.std.specs.Prelude.{◌≡◌, None};

use crate::counted::counted;
use avm_outside::{Failed, Sink};
use std::io;
use std::io::Write;

/// Standard output.
#[derive(Drop)]
pub struct RealSink<'a> {
    rt: &'a HostRuntime,
    faults: u64,
}

impl<'a> RealSink<'a> {
    /// Standard output, with a count of 0.
    pub fn new(rt: &'a HostRuntime) -> Self
        ensures { result.faults ≡ 0 }
    {
        RealSink { rt, faults: 0 }
    }
}

impl<'a> Sink for RealSink<'a> {
    ghost faults = { λ s. s.faults };

    ghost written = { λ _. None };

    fn write(&mut self, bytes: &[u8]) -> Result<(), Failed> {
        match io::writer(self.rt).write_all(bytes) {
            Ok(()) => Ok(()),
            Err(_) => Err(counted(&mut self.faults)),
        }
    }
}

#[cfg(test)]
mod tests {
    use super::*;

    #[test]
    fn a_line_is_written(rt: HostRuntime) {
        let mut out = RealSink::new(&rt);
        assert!(rt; out.write(b"a line\n").is_ok());
        assert_eq!(rt; out.faults, 0);
    }
}
