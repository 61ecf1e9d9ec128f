//! The doorbell of version 2: it rings, and its handler returns.

ghost use Rattle.std.specs.Prelude.{◌≡◌, ◌%◌, ℕ, Some, false, IfSome, IsSome, IsTrue, is_some, true, if◌then◌else◌};
ghost use Rattle.avm_model.specs.Bell.{version_of, is_bell, after_ring, pc_after_ring, after_return, pc_after_return, ring, ring_pc, enters_again};
ghost use Rattle.guest_dev.specs.Shown.{bell_or_zeros};

use crate::devices::{Devices, NEW_BELL};
use avm_model::Bell;

impl Devices {
    /// The version of the machine: 2 where it has a bell, else 1.
    pub fn version(&self) -> u8
        ensures { result ≡ version_of self.now.state.bell }
    {
        match self.bell {
            Some(_) => 2,
            None => 1,
        }
    }

    /// The bell, which is zeros in version 1.
    pub fn bell(&self) -> Bell
        ensures value { result ≡ bell_or_zeros self.now.state.bell }
        ensures bounds { is_bell (Some result) ≡ true }
    {
        match self.bell {
            Some(bell) => bell,
            None => NEW_BELL,
        }
    }

    /// Puts the bell of version 2, within the bounds of a head.
    pub fn set_bell(&mut self, bell: Bell)
        requires version { IsSome self.old.state.bell }
        requires bounds { is_bell (Some bell) ≡ true }
        ensures { self.new ≡ record self.old { state = record self.old.state { bell = Some bell } } }
    {
        self.bell = Some(bell);
    }

    /// Rings the bell of a machine that stands at `pc`, a multiple of 4, and gives the next pc. In version 1, and where the
    /// vector is 0, nothing rings.
    pub fn ring(&mut self, pc: u32) -> u32
        requires { pc % 4 ≡ 0 }
        ensures pc { result ≡ pc_after_ring self.old.state.bell pc }
        ensures aligned { result % 4 ≡ 0 }
        ensures after { self.new ≡ record self.old { state = record self.old.state { bell = after_ring self.old.state.bell pc } } }
    {
        let Some(bell) = self.bell else {
            return pc;
        };
        if bell.vector == 0 {
            return pc;
        }
        let Bell {
            vector,
            saved,
            state,
        } = bell;
        if state != 0 {
            self.bell = Some(Bell {
                vector,
                saved,
                state: 2,
            });
            return pc;
        }
        self.bell = Some(Bell {
            vector,
            saved: pc,
            state: 1,
        });
        vector
    }

    /// The pc of the return that a store to BELL_RET asked for, once; None exactly where none was asked.
    pub fn take_return(&mut self) -> Option<u32>
        ensures asked { is_some result ≡ self.old.returns }
        ensures pc { IfSome result (λ pc. (from : ℕ) → pc ≡ pc_after_return self.old.state.bell from) }
        ensures aligned { IfSome result (λ pc. pc % 4 ≡ 0) }
        ensures after { self.new ≡ record { state = record self.old.state { bell = if self.old.returns then after_return self.old.state.bell else self.old.state.bell }; returns = false } }
    {
        if !self.returns {
            return None;
        }
        self.returns = false;
        let Bell {
            vector,
            saved,
            state,
        } = self.bell?;
        if state == 2 && vector != 0 {
            self.bell = Some(Bell {
                vector,
                saved,
                state: 1,
            });
            return Some(vector);
        }
        self.bell = Some(Bell {
            vector,
            saved,
            state: 0,
        });
        Some(saved)
    }
}
