// A sink in memory.
ghost use Rattle.std.specs.Prelude.{◌≡◌, [], Some, IfOk};

use crate::calls::Calls;
use crate::{Failed, Sink};
use avm_num::NoMemory;
use std::alloc::Global;

/// A sink in memory. The calls whose numbers, counted from 1, are in its list fail; the others fail only for want of memory.
#[derive(Drop)]
pub struct MemSink {
    bytes: Vec<u8>,
    calls: Calls,
}

impl MemSink {
    ghost use Rattle.avm_outside.specs.Mem.{sink_bytes, sink_fails, sink_calls, sink_faults};

    /// No bytes, and the numbers of the calls that are to fail.
    pub fn new(alloc: Global, fails: Vec<u64>) -> Result<Self, NoMemory>
        ensures bytes { IfOk result (λ s. sink_bytes s ≡ []) }
        ensures fails { IfOk result (λ s. sink_fails s ≡ fails.items) }
        ensures calls { IfOk result (λ s. sink_calls s ≡ 0) }
        ensures faults { IfOk result (λ s. sink_faults s ≡ 0) }
    {
        Ok(MemSink {
            bytes: Vec::new(alloc),
            calls: Calls::new(fails),
        })
    }

    /// What was written.
    pub fn bytes(&self) -> &[u8]
        ensures { result.now ≡ sink_bytes self.now }
    {
        &self.bytes
    }
}

impl Sink for MemSink {
    ghost use Rattle.std.specs.Prelude.{◌++◌, ◌^◌, Contains, OnOk, OnErr, IsErr};
    ghost use Rattle.avm_outside.specs.Outside.{Counts};
    ghost use Rattle.avm_outside.specs.Mem.{sink_bytes, sink_fails, sink_calls, sink_faults, next_call};

    ghost faults = { λ s. s.calls.faults };

    ghost written = { λ s. Some s.bytes.items };

    fn write(&mut self, bytes: &[u8]) -> Result<(), Failed>
        ensures added { OnOk result (sink_bytes self.new ≡ sink_bytes self.old ++ bytes.now) }
        ensures failed { OnErr result (sink_bytes self.new ≡ sink_bytes self.old) }
        ensures faults { Counts (sink_faults self.old) (sink_faults self.new) result }
        ensures listed { Contains (sink_fails self.old) (sink_calls self.new) → IsErr result }
        ensures calls { sink_calls self.new ≡ next_call (sink_calls self.old) }
        ensures fails { sink_fails self.new ≡ sink_fails self.old }
    {
        if self.calls.count() || self.bytes.extend_from_slice(bytes).is_err() {
            return Err(self.calls.fail());
        }
        Ok(())
    }
}
