// What takes the packets, the console's lines and the authenticators of a run.
ghost use Rattle.std.specs.Prelude.{◌≡◌, ◌≤◌, ℕ, length, OnOk, OnErr};
ghost use Rattle.avm_outside.specs.Outside.{Counts};
ghost use Rattle.avm_outside.specs.Outlet.{Piece, packet, console, auth};

use crate::Failed;

/// What was released so far. An outlet names what it holds, and what a piece makes of that; one that tells nothing holds
/// nothing.
pub trait Outlet {
    /// How often a call has failed. It doesn't fall, and stays at the last value of a u64.
    ghost faults: { Self → ℕ };

    /// The loan by which it works on something else; it stays.
    ghost Loan: { Type 0 };

    ghost loan: { Self → Loan };

    /// What outlets of this type hold.
    ghost Held: { Type 0 };

    ghost held: { Self → Held };

    /// With one more piece.
    ghost adding: { Piece → Held → Held };

    /// After a call that failed: as before, or with a front of the piece.
    ghost tearing: { Piece → Held → Held → Type 0 };

    /// Adds a packet to a peer.
    fn packet(&mut self, peer: u32, bytes: &[u8]) -> Result<(), Failed>
        requires { length bytes.now ≤ 20000 }
        ensures added { OnOk result (held self.new ≡ adding (packet peer bytes.now) (held self.old)) }
        ensures failed { OnErr result (tearing (packet peer bytes.now) (held self.old) (held self.new)) }
        ensures loan { loan self.new ≡ loan self.old }
        ensures faults { Counts (faults self.old) (faults self.new) result };

    /// Adds a piece of the console.
    fn console(&mut self, bytes: &[u8]) -> Result<(), Failed>
        ensures added { OnOk result (held self.new ≡ adding (console bytes.now) (held self.old)) }
        ensures failed { OnErr result (tearing (console bytes.now) (held self.old) (held self.new)) }
        ensures loan { loan self.new ≡ loan self.old }
        ensures faults { Counts (faults self.old) (faults self.new) result };

    /// Adds an authenticator.
    fn authenticator(&mut self, bytes: &[u8]) -> Result<(), Failed>
        ensures added { OnOk result (held self.new ≡ adding (auth bytes.now) (held self.old)) }
        ensures failed { OnErr result (tearing (auth bytes.now) (held self.old) (held self.new)) }
        ensures loan { loan self.new ≡ loan self.old }
        ensures faults { Counts (faults self.old) (faults self.new) result };
}
