// The calls of an object in memory: which fail, how many there were, and how many failed.
ghost use Rattle.std.specs.Prelude.{◌≡◌, ◌<◌, ◌≤◌, ◌+◌, ◌-◌, ◌^◌, ◌↔◌, ℕ, min, Contains, IsTrue};
ghost use Rattle.avm_outside.specs.Outside.{Rises};
ghost use Rattle.avm_outside.specs.Mem.{next_call};

use crate::Failed;

/// The numbers of the calls that fail, counted from 1, the number of calls, and the count of faults.
#[derive(Drop)]
pub struct Calls {
    pub fails: Vec<u64>,
    pub calls: u64,
    pub faults: u64,
}

impl Calls {
    /// No call yet.
    pub fn new(fails: Vec<u64>) -> Calls
        ensures { result ≡ record { fails = fails; calls = 0; faults = 0 } }
    {
        Calls {
            fails,
            calls: 0,
            faults: 0,
        }
    }

    /// Counts a call, and says whether it fails by the list.
    pub fn count(&mut self) -> bool
        ensures fails { self.new.fails ≡ self.old.fails }
        ensures calls { self.new.calls ≡ next_call self.old.calls }
        ensures rises { self.old.calls ≤ self.new.calls }
        ensures next { self.old.calls + 1 < 2 ^ 64 → self.new.calls ≡ self.old.calls + 1 }
        ensures listed { IsTrue result ↔ Contains self.old.fails.items self.new.calls }
        ensures faults { self.new.faults ≡ self.old.faults }
    {
        self.calls = self.calls.saturating_add(1);
        self.fails.contains(&self.calls)
    }

    /// Counts a fault.
    pub fn fail(&mut self) -> Failed
        ensures fails { self.new.fails ≡ self.old.fails }
        ensures calls { self.new.calls ≡ self.old.calls }
        ensures faults { Rises self.old.faults self.new.faults }
    {
        self.faults = self.faults.saturating_add(1);
        Failed
    }
}
